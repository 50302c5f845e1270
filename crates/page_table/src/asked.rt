ghost use Rattle.std.specs.Prelude.{◌≡◌, ◌^◌, ◌<◌, ◌≤◌};
ghost use Rattle.paging.specs.Numbers.{numbers_of};
ghost use Rattle.page_table.specs.Search.{place_of, hash_of, query_of};

use crate::entry::Tag;
use crate::walk::Query;
use paging::form::PageForm;
use paging::plan::SettledPlan;
use refusals::refusal::Refusal;

// How many entries are compared at the most while the long-stop bit is on.
const LONG_SEARCH: u32 = 127;

// What to look for in the table of a plan: a query with numbers that a plan can have.
#[derive(Clone, Copy)]
pub(crate) struct Asked {
    pub(crate) query: Query,
    ghost low: { query.start < 2 ^ 24 },
    ghost some: { 1 ≤ query.limit },
    ghost few: { query.limit ≤ 8192 },
    ghost table: { 16 ≤ query.entries },
    ghost short: { query.entries ≤ 8192 },
}

impl Asked {
    // Plan, tag and long-stop bit are what every public search is asked with, so they stay three parameters: a struct of them
    // would be made at each call.
    pub(crate) fn new<F: PageForm>(plan: &SettledPlan<F>, tag: Tag, long_stop: bool) -> Self
        ensures { result.query ≡ query_of (numbers_of plan.now) long_stop tag }
    {
        let table = plan.table();
        let start = table.start.number / 4;
        let entries = table.entries;
        let (limit, stop) = if long_stop {
            (LONG_SEARCH, Refusal::LongSearch)
        } else {
            (entries, Refusal::EndlessChain)
        };
        let query = Query {
            start,
            entries,
            tag,
            limit,
            stop,
        };
        Asked { query }
    }

    // The anchor at which the chain of the virtual page begins.
    pub(crate) fn hash(self) -> u16
        ensures is { result ≡ hash_of self.query }
        ensures low { result < self.query.entries }
    {
        let Tag { segment, page } = self.query.tag;
        ((u32::from(segment) ^ page) % self.query.entries) as u16
    }

    // Where the first word of an entry lies.
    pub(crate) fn place(self, entry: u16) -> u32
        ensures is { result ≡ place_of self.query entry }
        ensures low { result < 2 ^ 25 }
    {
        self.query.start + 4 * u32::from(entry)
    }
}
