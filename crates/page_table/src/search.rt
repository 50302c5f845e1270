ghost use Rattle.std.specs.Prelude.{◌≡◌, ◌+◌, ◌<◌, Some};
ghost use Rattle.paging.specs.Numbers.{numbers_of};
ghost use Rattle.page_table.specs.Search.{turned_ahead, itself, query_of, searched};
ghost use Rattle.page_table.specs.Laws.{LinkedWell};

use crate::asked::Asked;
use crate::chain::{Hit, find_entry, follow, word_of};
use crate::decode::{entry_of, link_of, tag_of};
use crate::entry::Tag;
use crate::finding::same_tag;
use crate::walk::{Compared, Fault, Found, Linked, Turn};
use paging::form::PageForm;
use paging::plan::SettledPlan;
use std::ops::ControlFlow;
use storage::words::ReadStorage;

// Words 0 and 1 are read before the comparison. Where a word that is read is not there, the entry is the last, and does not
// count.
impl Hit for Linked {
    ghost reached = { itself };

    ghost turned = { turned_ahead };

    fn turn<F: PageForm, S: ReadStorage>(
        asked: Asked,
        storage: &S,
        at: u16,
        before: Compared,
    ) -> Turn<Linked> {
        let place = asked.place(at);
        let reached = Compared {
            count: before.count,
            last: Some(at),
        };
        let word0 = word_of(storage, place, reached)?;
        let word1 = word_of(storage, place + 1, reached)?;
        let link = link_of(word1);
        if same_tag(tag_of::<F>(word0), asked.query.tag) {
            let word2 = word_of(storage, place + 2, reached)?;
            let found = Found {
                entry: at,
                page: entry_of::<F>(word0, word2),
                compared: before.count + 1,
            };
            Ok(ControlFlow::Break(Linked { found, link }))
        } else {
            follow(asked, at, before.count + 1, link)
        }
    }
}

// Searches the page table of a plan for a virtual page.
#[tactic(auto, using(crate::proofs::Walks::linked_well))]
pub fn search<F: PageForm, S: ReadStorage>(
    storage: &S,
    plan: &SettledPlan<F>,
    tag: Tag,
    long_search: bool,
) -> Result<Linked, Fault>
    ensures is { result ≡ searched F.PageForm.sizes (S.ReadStorage.words storage.now) (query_of (numbers_of plan.now) long_search tag) }
    ensures well { LinkedWell F.PageForm.sizes (S.ReadStorage.words storage.now) (query_of (numbers_of plan.now) long_search tag) result }
{
    find_entry::<Linked, F, S>(Asked::new(plan, tag, long_search), storage)
}
