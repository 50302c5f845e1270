ghost use Rattle.std.specs.Prelude.{◌≡◌, ℕ, ◌+◌, ◌*◌, ◌^◌, ◌<◌, ◌≤◌, List, Option, None};
ghost use Rattle.paging.specs.declared.geometry.PageGeometry.{PageGeometry};
ghost use Rattle.page_table.specs.declared.walk.Query.{Query};
ghost use Rattle.page_table.specs.Search.{Turn, Going, word_of, followed, chain, place_of, hash_of, query_of, found_by, uncompared};

use crate::asked::Asked;
use crate::decode::anchor_of;
use crate::entry::Link;
use crate::walk::{Compared, Fault, Turn};
use paging::form::PageForm;
use refusals::refusal::Refusal;
use std::ops::ControlFlow;
use storage::words::ReadStorage;

// What a search finds, and how it compares an entry on its way.
pub(crate) trait Hit {
    // which entry a refusal names as the last before an entry is compared, given that entry and the last
    ghost reached: { ℕ → Option ℕ → Option ℕ };

    ghost turned: { PageGeometry → List ℕ → Query → ℕ → ℕ → Option ℕ → Turn Self };

    // Compares the entry at a place of the table, after others.
    fn turn<F: PageForm, S: ReadStorage>(
        asked: Asked,
        storage: &S,
        at: u16,
        before: Compared,
    ) -> Turn<Self>
        requires { before.count < 8192 }
        ensures is { result ≡ turned F.PageForm.sizes (S.ReadStorage.words storage.now) asked.query at before.count before.last }
        ensures going { Going asked.query (before.count + 1) result };
}

// A word of a storage, read after the comparisons that are given.
pub(crate) fn word_of<S: ReadStorage>(
    storage: &S,
    place: u32,
    compared: Compared,
) -> Result<u32, Fault>
    ensures { result ≡ word_of (S.ReadStorage.words storage.now) place compared.count compared.last }
{
    storage
        .read(place)
        .map_err(|refusal| Fault { refusal, compared })
}

// Behind an entry that was compared as the one of that count, and differs.
pub(crate) fn follow<E>(asked: Asked, at: u16, count: u16, link: Link) -> Turn<E>
    ensures is { result ≡ followed asked.query at count link }
    ensures going { Going asked.query count result }
{
    let refusal = if link.last {
        Refusal::PageFault
    } else if u32::from(count) == asked.query.limit {
        asked.query.stop
    } else if u32::from(link.next) < asked.query.entries {
        return Ok(ControlFlow::Continue(link.next));
    } else {
        Refusal::PointerOutside
    };
    Err(Fault {
        refusal,
        compared: Compared {
            count,
            last: Some(at),
        },
    })
}

// Follows a chain from its first entry on.
fn walk<H: Hit, F: PageForm, S: ReadStorage>(
    asked: Asked,
    storage: &S,
    first: u16,
) -> Result<H, Fault>
    ensures { result ≡ chain H.Hit.reached (H.Hit.turned F.PageForm.sizes (S.ReadStorage.words storage.now) asked.query) asked.query asked.query.limit first 0 None }
{
    let mut at = first;
    let mut compared = Compared::default();
    // A `for` over the counts would need an end behind it that no walk comes to: the turn at the limit ends each.
    'follow: loop {
        match H::turn::<F, S>(asked, storage, at, compared)? {
            ControlFlow::Break(found) => return Ok(found),
            ControlFlow::Continue(next) => {
                compared = compared.with(at);
                at = next;
            }
        }
    }
}

// A refusal before any entry is compared. By hand, since no derive fills the second field.
impl From<Refusal> for Fault {
    ghost from_gives = { λ e r. r ≡ uncompared e };

    fn from(refusal: Refusal) -> Fault {
        Fault {
            refusal,
            compared: Compared::default(),
        }
    }
}

// Searches for a virtual page from its anchor on.
pub(crate) fn find_entry<H: Hit, F: PageForm, S: ReadStorage>(
    asked: Asked,
    storage: &S,
) -> Result<H, Fault>
    ensures { result ≡ found_by H.Hit.reached (H.Hit.turned F.PageForm.sizes (S.ReadStorage.words storage.now) asked.query) (S.ReadStorage.words storage.now) asked.query }
{
    let word = storage.read(asked.place(asked.hash()) + 1)?;
    let anchor = anchor_of(word);
    if anchor.empty {
        return Err(Fault::from(Refusal::PageFault));
    }
    if u32::from(anchor.first) >= asked.query.entries {
        return Err(Fault::from(Refusal::PointerOutside));
    }
    walk::<H, F, S>(asked, storage, anchor.first)
}
