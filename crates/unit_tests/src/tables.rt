use page_table::entry::{PageEntry, Tag};
use paging::form::PageForm;
use std::process::Abort;
use std::test::Fail;
use storage::words::Storage;

// Where a page table lies in the storage, by the number of its first word, and how many entries it has.
#[derive(Clone, Copy)]
pub(crate) struct Table {
    pub start: u32,
    pub entries: u32,
}

pub(crate) fn is_2k<F: PageForm>() -> bool {
    F::geometry().page == 2048
}

// The table with exponent 16 and base 1. In 2K there are 65,536 / 2,048 = 32 entries, and the table starts at byte 16 * 32,
// which is word 128. In 4K there are 16, and it starts at byte 16 * 16, which is word 64. It lies in real page 0.
pub(crate) fn small_table<F: PageForm>() -> Table {
    if is_2k::<F>() {
        Table {
            start: 128,
            entries: 32,
        }
    } else {
        Table {
            start: 64,
            entries: 16,
        }
    }
}

// The number of the first word of a real page: 512 words are a page of 2K and 1,024 one of 4K.
pub(crate) fn first_word<F: PageForm>(page: u32) -> u32 {
    if is_2k::<F>() { page << 9 } else { page << 10 }
}

// The number of a word of an entry.
pub(crate) fn word_number(rt: &impl Abort, table: Table, entry: u32, word: u32) -> u32 {
    assert!(rt; table.start < 4_194_304 && entry < 8192 && word < 4);
    table.start + 4 * entry + word
}

// The words of a table are built here and in table_tests too. A crate for so few lines is no plainer: both would stand on it, and
// it would have contracts of its own.
//
// Word 0 of an entry. Bit b counts 2^(31 - b): the key ends at bit 1, the segment ID at bit 14, and the page number at bit 31
// in 2K and at bit 30 in 4K.
fn tag_word<F: PageForm>(key: u8, tag: Tag) -> u32 {
    let page = if is_2k::<F>() {
        tag.page
    } else {
        tag.page << 1
    };
    u32::from(key) << 30 | u32::from(tag.segment) << 17 | page
}

// Word 2 of an entry: the write bit is bit 7, the transaction ID ends at bit 15, and the lock bits end at bit 31.
fn rights_word(page: PageEntry) -> u32 {
    u32::from(page.write) << 24 | u32::from(page.transaction) << 16 | u32::from(page.locks)
}

// Writes the anchor of a chain, in the upper half of word 1: bit 0 says that it is empty, and the pointer ends at bit 15.
pub(crate) fn put_anchor<S: Storage>(
    rt: &impl Abort,
    storage: &mut S,
    table: Table,
    anchor: u32,
    empty: bool,
    first: u16,
) -> Result<(), Fail> {
    let word1 = u32::from(empty) << 31 | u32::from(first) << 16;
    storage.write(word_number(rt, table, anchor, 1), word1, 12)?;
    Ok(())
}

// Writes how the chain goes on behind an entry, in the lower half of word 1: bit 16 says that the entry is the last, and the
// pointer ends at bit 31.
pub(crate) fn put_link<S: Storage>(
    rt: &impl Abort,
    storage: &mut S,
    table: Table,
    entry: u16,
    last: bool,
    next: u16,
) -> Result<(), Fail> {
    let word1 = u32::from(last) << 15 | u32::from(next);
    storage.write(word_number(rt, table, u32::from(entry), 1), word1, 3)?;
    Ok(())
}

// Puts a page in front of its chain, which begins at anchor (segment ID XOR page number) mod the count of entries.
pub(crate) fn put_page<F: PageForm, S: Storage>(
    rt: &impl Abort,
    storage: &mut S,
    table: Table,
    entry: u16,
    page: PageEntry,
) -> Result<(), Fail> {
    assert!(rt; table.entries > 0);
    let anchor = (u32::from(page.tag.segment) ^ page.tag.page) % table.entries;
    let old = storage.read(word_number(rt, table, anchor, 1))?;
    let first = (old >> 16 & 0x1fff) as u16;
    put_link(rt, storage, table, entry, old >> 31 == 1, first)?;
    put_anchor(rt, storage, table, anchor, false, entry)?;
    let number = word_number(rt, table, u32::from(entry), 0);
    storage.write(number, tag_word::<F>(page.key, page.tag), 15)?;
    let number = word_number(rt, table, u32::from(entry), 2);
    storage.write(number, rights_word(page), 15)?;
    Ok(())
}

// Writes a table of these pages and no other. A page stands in front of the earlier ones of its chain.
pub(crate) fn put_table<F: PageForm, S: Storage>(
    rt: &impl Abort,
    storage: &mut S,
    table: Table,
    pages: &[(u16, PageEntry)],
) -> Result<(), Fail> {
    for anchor in 0..table.entries {
        put_anchor(rt, storage, table, anchor, true, 0)?;
    }
    for &(entry, page) in pages {
        put_page::<F, S>(rt, storage, table, entry, page)?;
    }
    Ok(())
}

// A page as an ordinary segment uses it: only the key counts there. What counts in a special segment permits nothing.
pub(crate) fn keyed(segment: u16, page: u32, key: u8) -> PageEntry {
    PageEntry {
        key,
        tag: Tag { segment, page },
        write: false,
        transaction: 0,
        locks: 0,
    }
}

// A page as a special segment uses it: the key does not count there.
pub(crate) fn locked(
    segment: u16,
    page: u32,
    write: bool,
    transaction: u8,
    locks: u16,
) -> PageEntry {
    PageEntry {
        key: 0,
        tag: Tag { segment, page },
        write,
        transaction,
        locks,
    }
}
