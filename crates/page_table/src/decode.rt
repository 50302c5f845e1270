ghost use Rattle.std.specs.Prelude.{◌≡◌, ◌^◌, ◌<◌};
ghost use Rattle.page_table.specs.Entry.{tag_of, anchor_of, link_of, entry_of};

use crate::entry::{Anchor, Link, PageEntry, Tag};
use paging::form::PageForm;

// The virtual page in word 0 of an entry.
pub fn tag_of<F: PageForm>(word: u32) -> Tag
    ensures { result ≡ tag_of F.PageForm.sizes word }
{
    let width = F::geometry().width;
    Tag {
        segment: ((word >> 17) % 4096) as u16,
        page: (word >> (17 - width)) % (1 << width),
    }
}

// The anchor in word 1 of an entry.
pub fn anchor_of(word: u32) -> Anchor
    ensures { result ≡ anchor_of word }
{
    Anchor {
        empty: word >> 31 == 1,
        first: ((word >> 16) % 8192) as u16,
    }
}

// The link in word 1 of an entry.
pub fn link_of(word: u32) -> Link
    ensures { result ≡ link_of word }
{
    Link {
        last: (word >> 15) % 2 == 1,
        next: (word % 8192) as u16,
    }
}

// What words 0 and 2 of an entry say of its real page.
pub fn entry_of<F: PageForm>(word0: u32, word2: u32) -> PageEntry
    ensures { result ≡ entry_of F.PageForm.sizes word0 word2 }
{
    PageEntry {
        key: (word0 >> 30) as u8,
        tag: tag_of::<F>(word0),
        write: (word2 >> 24) % 2 == 1,
        transaction: ((word2 >> 16) % 256) as u8,
        locks: (word2 % 65536) as u16,
    }
}
