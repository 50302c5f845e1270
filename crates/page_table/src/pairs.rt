ghost use Rattle.std.specs.Prelude.{◌≡◌};
ghost use Rattle.paging.specs.Numbers.{numbers_of};
ghost use Rattle.page_table.specs.Search.{query_of, found_in, searched};
ghost use Rattle.page_table.specs.Laws.{Apart, AlikeTables, unlinked};

use crate::entry::Tag;
use crate::finding::find_page;
use crate::search::search;
use crate::walk::{Fault, Found, Linked};
use paging::form::PageForm;
use paging::plan::SettledPlan;
use storage::words::ReadStorage;

// The two kinds of search have each their pairs by name: a pair is two calls, and a generic one would be no shorter.

// Searches one table for two virtual pages. They never share an entry.
pub fn find_both_pages<F: PageForm, S: ReadStorage>(
    storage: &S,
    plan: &SettledPlan<F>,
    one: Tag,
    other: Tag,
    long_stop: bool,
) -> (Result<Found, Fault>, Result<Found, Fault>)
    ensures first { result.0 ≡ found_in F.PageForm.sizes (S.ReadStorage.words storage.now) (query_of (numbers_of plan.now) long_stop one) }
    ensures second { result.1 ≡ found_in F.PageForm.sizes (S.ReadStorage.words storage.now) (query_of (numbers_of plan.now) long_stop other) }
    ensures apart { Apart one other result.0 result.1 }
{
    (
        find_page(storage, plan, one, long_stop),
        find_page(storage, plan, other, long_stop),
    )
}

// Searches the tables of two storages for one virtual page. Where the tables are alike, so are the results.
pub fn find_in_both<F: PageForm, S: ReadStorage, T: ReadStorage>(
    first: &S,
    second: &T,
    plan: &SettledPlan<F>,
    tag: Tag,
    long_stop: bool,
) -> (Result<Found, Fault>, Result<Found, Fault>)
    ensures first { result.0 ≡ found_in F.PageForm.sizes (S.ReadStorage.words first.now) (query_of (numbers_of plan.now) long_stop tag) }
    ensures second { result.1 ≡ found_in F.PageForm.sizes (T.ReadStorage.words second.now) (query_of (numbers_of plan.now) long_stop tag) }
    ensures alike { AlikeTables (query_of (numbers_of plan.now) long_stop tag) (S.ReadStorage.words first.now) (T.ReadStorage.words second.now) → result.0 ≡ result.1 }
{
    (
        find_page(first, plan, tag, long_stop),
        find_page(second, plan, tag, long_stop),
    )
}

// Searches one table for two virtual pages. They never share an entry.
pub fn search_for_both<F: PageForm, S: ReadStorage>(
    storage: &S,
    plan: &SettledPlan<F>,
    one: Tag,
    other: Tag,
    long_search: bool,
) -> (Result<Linked, Fault>, Result<Linked, Fault>)
    ensures first { result.0 ≡ searched F.PageForm.sizes (S.ReadStorage.words storage.now) (query_of (numbers_of plan.now) long_search one) }
    ensures second { result.1 ≡ searched F.PageForm.sizes (S.ReadStorage.words storage.now) (query_of (numbers_of plan.now) long_search other) }
    ensures apart { Apart one other (unlinked result.0) (unlinked result.1) }
{
    (
        search(storage, plan, one, long_search),
        search(storage, plan, other, long_search),
    )
}

// Searches the tables of two storages for one virtual page. Where the tables are alike, so are the results.
pub fn search_in_both<F: PageForm, S: ReadStorage, T: ReadStorage>(
    first: &S,
    second: &T,
    plan: &SettledPlan<F>,
    tag: Tag,
    long_search: bool,
) -> (Result<Linked, Fault>, Result<Linked, Fault>)
    ensures first { result.0 ≡ searched F.PageForm.sizes (S.ReadStorage.words first.now) (query_of (numbers_of plan.now) long_search tag) }
    ensures second { result.1 ≡ searched F.PageForm.sizes (T.ReadStorage.words second.now) (query_of (numbers_of plan.now) long_search tag) }
    ensures alike { AlikeTables (query_of (numbers_of plan.now) long_search tag) (S.ReadStorage.words first.now) (T.ReadStorage.words second.now) → result.0 ≡ result.1 }
{
    (
        search(first, plan, tag, long_search),
        search(second, plan, tag, long_search),
    )
}
