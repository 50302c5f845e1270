ghost use Rattle.std.specs.Prelude.{◌≡◌, ◌+◌, ◌<◌, Some};
ghost use Rattle.paging.specs.Numbers.{numbers_of};
ghost use Rattle.page_table.specs.Search.{same_tag, turned, before, query_of, found_in};
ghost use Rattle.page_table.specs.Laws.{Well, Walked};

use crate::asked::Asked;
use crate::chain::{Hit, find_entry, follow, word_of};
use crate::decode::{entry_of, link_of, tag_of};
use crate::entry::Tag;
use crate::walk::{Compared, Fault, Found, Turn};
use paging::form::PageForm;
use paging::plan::SettledPlan;
use std::ops::ControlFlow;
use storage::words::ReadStorage;

// Whether two tags are equal in segment ID and page number.
pub fn same_tag(one: Tag, other: Tag) -> bool
    ensures { result ≡ same_tag one other }
{
    one == other
}

// An entry counts as soon as its tag is read. Word 1 is read only where the tag differs, and word 2 only where it is equal.
impl Hit for Found {
    ghost reached = { before };

    ghost turned = { turned };

    fn turn<F: PageForm, S: ReadStorage>(
        asked: Asked,
        storage: &S,
        at: u16,
        before: Compared,
    ) -> Turn<Found> {
        let place = asked.place(at);
        let word0 = word_of(storage, place, before)?;
        let compared = before.with(at);
        if same_tag(tag_of::<F>(word0), asked.query.tag) {
            let word2 = word_of(storage, place + 2, compared)?;
            Ok(ControlFlow::Break(Found {
                entry: at,
                page: entry_of::<F>(word0, word2),
                compared: compared.count,
            }))
        } else {
            let word1 = word_of(storage, place + 1, compared)?;
            follow(asked, at, compared.count, link_of(word1))
        }
    }
}

// Searches the page table of a plan for a virtual page.
#[tactic(auto, using(crate::proofs::Walks::searched_well, crate::proofs::Walks::searched_walked))]
pub fn find_page<F: PageForm, S: ReadStorage>(
    storage: &S,
    plan: &SettledPlan<F>,
    tag: Tag,
    long_stop: bool,
) -> Result<Found, Fault>
    ensures is { result ≡ found_in F.PageForm.sizes (S.ReadStorage.words storage.now) (query_of (numbers_of plan.now) long_stop tag) }
    ensures well { Well F.PageForm.sizes (S.ReadStorage.words storage.now) (query_of (numbers_of plan.now) long_stop tag) result }
    ensures walked { Walked F.PageForm.sizes (S.ReadStorage.words storage.now) (query_of (numbers_of plan.now) long_stop tag) result }
{
    find_entry::<Found, F, S>(Asked::new(plan, tag, long_stop), storage)
}
