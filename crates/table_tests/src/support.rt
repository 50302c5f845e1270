use page_table::entry::{PageEntry, Tag};
use page_table::finding::find_page;
use page_table::trace::trace_page;
use page_table::walk::{Fault, Found};
use paging::draft::Draft;
use paging::form::PageForm;
use paging::plan::SettledPlan;
use std::alloc::{AllocError, Global};
use std::process::Abort;
use std::test::Fail;
use storage::words::{ReadStorage, Storage};

// A plan that has to settle. unit_tests has these lines too: a third crate for them would need a contract and a place of its own.
pub(crate) fn plan_of<F: PageForm + Copy>(
    form: F,
    exponent: u32,
    base: u32,
) -> Result<SettledPlan<F>, Fail> {
    let draft = Draft {
        form,
        exponent,
        base,
    };
    draft
        .settle()
        .map_err(|refused| Fail::from(refused.refusal))
}

// The bytes of a storage that fits a plan, all of them 0.
pub(crate) fn bytes_of<F: PageForm>(
    heap: Global,
    plan: &SettledPlan<F>,
) -> Result<Vec<u8>, AllocError> {
    vec![in heap; 0u8; plan.storage_bytes() as usize]
}

pub(crate) fn virtual_page(segment: u16, page: u32) -> Tag {
    Tag { segment, page }
}

// What the tables of these tests say of the real page of an entry: its number, in as many bits as each field has.
pub(crate) fn page_of(entry: u16, tag: Tag) -> PageEntry {
    PageEntry {
        key: (entry % 4) as u8,
        tag,
        write: entry % 2 == 1,
        transaction: (entry % 256) as u8,
        locks: entry,
    }
}

// The words of a table are built here and in unit_tests too. A crate for so few lines is no plainer: both would stand on it, and
// it would have contracts of its own.
//
// Word 0 of an entry. Bit b counts 2^(31 - b): the key ends at bit 1, the segment ID at bit 14, and the page number at bit 31
// in 2K and at bit 30 in 4K.
pub(crate) fn tag_word<F: PageForm>(key: u8, tag: Tag) -> u32 {
    let page = if F::geometry().page == 2048 {
        tag.page
    } else {
        tag.page << 1
    };
    u32::from(key) << 30 | u32::from(tag.segment) << 17 | page
}

// The upper half of word 1: bit 0 says that the anchor is empty, and its pointer ends at bit 15.
pub(crate) fn anchor_word(empty: bool, first: u16) -> u32 {
    u32::from(empty) << 31 | u32::from(first) << 16
}

// The lower half of word 1: bit 16 says that the entry is the last of its chain, and its pointer ends at bit 31.
pub(crate) fn link_word(last: bool, next: u16) -> u32 {
    u32::from(last) << 15 | u32::from(next)
}

// Word 2 of an entry: the write bit is bit 7, the transaction ID ends at bit 15, and the lock bits end at bit 31.
pub(crate) fn rights_word(write: bool, transaction: u8, locks: u16) -> u32 {
    u32::from(write) << 24 | u32::from(transaction) << 16 | u32::from(locks)
}

// Where a word of an entry lies in the storage, in a table from a word on: each entry has four.
pub(crate) fn word_number(rt: &impl Abort, start: u32, entry: u16, word: u32) -> u32 {
    assert!(rt; start < 4_194_304 && entry < 8192 && word < 4);
    start + 4 * u32::from(entry) + word
}

// Writes the upper half of word 1, which belongs to the anchor; the lower half stays.
pub(crate) fn put_anchor<S: Storage>(
    rt: &impl Abort,
    storage: &mut S,
    start: u32,
    anchor: u16,
    word1: u32,
) -> Result<(), Fail> {
    storage.write(word_number(rt, start, anchor, 1), word1, 12)?;
    Ok(())
}

// Writes what belongs to a real page: words 0 and 2, and the lower half of word 1; the upper half stays.
pub(crate) fn put_entry<F: PageForm, S: Storage>(
    rt: &impl Abort,
    storage: &mut S,
    start: u32,
    entry: u16,
    tag: Tag,
    word1: u32,
) -> Result<(), Fail> {
    let page = page_of(entry, tag);
    let word0 = tag_word::<F>(page.key, tag);
    let word2 = rights_word(page.write, page.transaction, page.locks);
    storage.write(word_number(rt, start, entry, 0), word0, 15)?;
    storage.write(word_number(rt, start, entry, 1), word1, 3)?;
    storage.write(word_number(rt, start, entry, 2), word2, 15)?;
    Ok(())
}

// Turns every reserved bit of a table on: in word 0 bit 2, and in 4K bit 31 too; in word 1 bits 1, 2, 17 and 18; in word 2
// bits 0 to 6; all of word 3.
pub(crate) fn turn_reserved_bits_on<F: PageForm, S: Storage>(
    rt: &impl Abort,
    storage: &mut S,
    start: u32,
    pages: u16,
) -> Result<(), Fail> {
    let in_word0 = if F::geometry().page == 2048 {
        0x2000_0000
    } else {
        0x2000_0001
    };
    for entry in 0..pages {
        for (word, bits) in [
            (0, in_word0),
            (1, 0x6000_6000),
            (2, 0xfe00_0000),
            (3, 0xffff_ffff),
        ] {
            let n = word_number(rt, start, entry, word);
            let fields = storage.read(n)?;
            storage.write(n, fields | bits, 15)?;
        }
    }
    Ok(())
}

// A walk and what comes of it: the virtual page that it asks for, the long-stop bit, which goes with any page, the number of the
// refusal, 0 where the page is found, and the entries that are compared.
#[derive(Clone, Copy)]
pub(crate) struct Walk<'a> {
    pub tag: Tag,
    pub long_stop: bool,
    pub number: u8,
    pub path: &'a [u16],
}

// Checks what came of a walk. As many entries are compared as are listed, and the last of them is the entry that is found, or
// that was compared last. A failure tells the setting and what the walk asked for.
pub(crate) fn comes_to(
    rt: &impl Abort,
    outcome: Result<Found, Fault>,
    walk: Walk<'_>,
    setting: &str,
) {
    let Walk {
        tag,
        long_stop,
        number,
        path,
    } = walk;
    let Tag { segment, page } = tag;
    let (given, compared, last) = match outcome {
        Ok(found) => {
            assert_eq!(rt;
                found.page,
                page_of(found.entry, tag),
                "{setting}: segment {segment}, page {page}, long-stop bit {long_stop}"
            );
            (0, found.compared, Some(found.entry))
        }
        Err(fault) => (
            fault.refusal.number(),
            fault.compared.count,
            fault.compared.last,
        ),
    };
    assert_eq!(rt;
        (given, usize::from(compared), last),
        (number, path.len(), path.last().copied()),
        "{setting}: segment {segment}, page {page}, long-stop bit {long_stop}"
    );
}

// Checks a walk, and the list of the entries that it compares.
pub(crate) fn answers<F: PageForm, S: ReadStorage>(
    rt: &impl Abort,
    heap: Global,
    storage: &S,
    plan: &SettledPlan<F>,
    walk: Walk<'_>,
    setting: &str,
) -> Result<(), Fail> {
    let Walk { tag, long_stop, .. } = walk;
    let Tag { segment, page } = tag;
    comes_to(rt, find_page(storage, plan, tag, long_stop), walk, setting);
    let trace = trace_page(heap, storage, plan, tag, long_stop)?;
    comes_to(rt, trace.outcome, walk, setting);
    assert_eq!(rt;
        trace.entries.as_slice(),
        walk.path,
        "{setting}: segment {segment}, page {page}, long-stop bit {long_stop}"
    );
    Ok(())
}

// The entries of a table from the highest down to the lowest that is given.
pub(crate) fn down_to(heap: Global, pages: u16, lowest: u16) -> Result<Vec<u16>, AllocError> {
    (lowest..pages).rev().collect(heap)
}
