ghost use Rattle.std.specs.Prelude.{◌≡◌, ◌^◌, ◌<◌, ◌≤◌, IfOk, slice_index};
ghost use Rattle.paging.specs.Numbers.{numbers_of};
ghost use Rattle.page_table.specs.Search.{query_of, found_in};
ghost use Rattle.page_table.specs.Laws.{Listed, compared_by};

use crate::asked::Asked;
use crate::decode::{anchor_of, link_of};
use crate::entry::Tag;
use crate::finding::find_page;
use crate::walk::{Fault, Found, Trace};
use paging::form::PageForm;
use paging::plan::SettledPlan;
use std::alloc::{AllocError, Global};
use std::iter;
use storage::words::ReadStorage;

// How many entries a walk compared.
fn compared_by(outcome: Result<Found, Fault>) -> u16
    ensures { result ≡ compared_by outcome }
{
    match outcome {
        Ok(found) => found.compared,
        Err(fault) => fault.compared.count,
    }
}

// A word of a storage, and 0 where there is none.
fn word_at<S: ReadStorage>(storage: &S, n: u32) -> u32
    ensures { result ≡ slice_index (S.ReadStorage.words storage.now) n }
{
    storage.read(n).unwrap_or(0)
}

// The first entries of a virtual page's chain.
fn chain_entries<S: ReadStorage>(
    heap: Global,
    storage: &S,
    asked: Asked,
    count: u16,
) -> Result<Vec<u16>, AllocError>
    ensures { IfOk result (λ v. Listed (S.ReadStorage.words storage.now) asked.query count v.items) }
{
    let anchor = anchor_of(word_at(storage, asked.place(asked.hash()) + 1));
    let next = |at: &u16| Some(link_of(word_at(storage, asked.place(*at) + 1)).next);
    iter::successors(Some(anchor.first), next)
        .take(usize::from(count))
        .collect(heap)
}

// Searches the page table of a plan for a virtual page, and lists the entries that the walk compares.
pub fn trace_page<F: PageForm, S: ReadStorage>(
    heap: Global,
    storage: &S,
    plan: &SettledPlan<F>,
    tag: Tag,
    long_stop: bool,
) -> Result<Trace, AllocError>
    ensures is { IfOk result (λ t. t.outcome ≡ found_in F.PageForm.sizes (S.ReadStorage.words storage.now) (query_of (numbers_of plan.now) long_stop tag)) }
    ensures entries { IfOk result (λ t. Listed (S.ReadStorage.words storage.now) (query_of (numbers_of plan.now) long_stop tag) (compared_by t.outcome) t.entries.items) }
{
    let outcome = find_page(storage, plan, tag, long_stop);
    let asked = Asked::new(plan, tag, long_stop);
    let entries = chain_entries(heap, storage, asked, compared_by(outcome))?;
    Ok(Trace { entries, outcome })
}
