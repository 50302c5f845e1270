ghost use Rattle.std.specs.Prelude.{◌≡◌, ◌<◌};
ghost use Rattle.page_table.specs.Search.{with_entry};

use crate::entry::{Link, PageEntry, Tag};
use refusals::refusal::Refusal;
use std::ops::ControlFlow;

// What a walk looks for, and where: the first word of the table, its entries, the virtual page, how many entries may be
// compared, and the refusal where the chain goes on behind so many.
#[derive(Clone, Copy)]
pub struct Query {
    pub start: u32,
    pub entries: u32,
    pub tag: Tag,
    pub limit: u32,
    pub stop: Refusal,
}

// How many entries were compared, and the last of them.
#[derive(Clone, Copy, PartialEq, Eq, Default, Debug)]
pub struct Compared {
    pub count: u16,
    pub last: Option<u16>,
}

impl Compared {
    // With one entry more.
    pub(crate) fn with(self, entry: u16) -> Compared
        requires { self.count < 8192 }
        ensures { result ≡ with_entry self entry }
    {
        Compared {
            count: self.count + 1,
            last: Some(entry),
        }
    }
}

// The entry that a walk found, with what it says, and how many entries were compared: it is the last of them.
#[derive(Clone, Copy, PartialEq, Eq, Debug)]
pub struct Found {
    pub entry: u16,
    pub page: PageEntry,
    pub compared: u16,
}

// What a search found, and how its chain goes on behind the entry.
#[derive(Clone, Copy, PartialEq, Eq, Debug)]
pub struct Linked {
    pub found: Found,
    pub link: Link,
}

// Why a search or a request was refused, and which entries were compared before.
#[derive(Clone, Copy, PartialEq, Eq, Debug)]
pub struct Fault {
    pub refusal: Refusal,
    pub compared: Compared,
}

// The entries that a walk compared, in their order, and what came of it.
#[derive(Drop)]
pub struct Trace {
    pub entries: Vec<u16>,
    pub outcome: Result<Found, Fault>,
}

// What comes of one comparison: what the walk found, or the next entry.
pub type Turn<E> = Result<ControlFlow<E, u16>, Fault>;
