use crate::support::{by_form, is_2k};
use paging::form::PageForm;
use std::test::Fail;
use storage::words::Storage;

// Where a chain begins: segment ID XOR page number, which is the anchor modulo the count of entries, and its first entry.
pub(crate) type Start = (u32, u16);

// An entry: word 0 without the page number, which is the key in the two highest bits and the segment ID times 20000; the page
// number; how its chain goes on, which is the next entry, or bit 16 of word 1 behind the last; and word 2, which is the write bit
// times 1000000, the transaction ID times 10000, and the lock bits. These factors are hexadecimal.
pub(crate) type Row = (u16, u32, u32, u16, u32);

pub(crate) const LAST: u16 = 0x8000;

// The count of entries: 65,536 bytes are 32 pages of 2,048 and 16 of 4,096.
pub(crate) fn entry_count<F: PageForm>() -> u16 {
    if is_2k::<F>() { 32 } else { 16 }
}

// The number of a word of an entry. The table starts at byte 1 * 16 * 32 in 2K and 1 * 16 * 16 in 4K, which is word 128 or 64,
// and has as many words.
fn word_number<F: PageForm>(entry: u16, word: u32) -> u32 {
    by_form::<F>(128, 64) | u32::from(entry) << 2 | word
}

fn anchor_of<F: PageForm>(hash: u32) -> u16 {
    if is_2k::<F>() {
        (hash % 32) as u16
    } else {
        (hash % 16) as u16
    }
}

// Writes the table. Word 1 has the anchor in its upper half, where bit 0 is for an empty one, and the link of the chain in its
// lower half. The page number ends word 0 in 2K, and is one bit further left in 4K. Word 3 is reserved and stays.
pub(crate) fn put_table<F: PageForm, S: Storage>(
    storage: &mut S,
    starts: &[Start],
    rows: &[Row],
) -> Result<(), Fail> {
    for entry in 0..entry_count::<F>() {
        storage.write(word_number::<F>(entry, 1), 0x8000_0000, 15)?;
    }
    for &(hash, first) in starts {
        let anchor = anchor_of::<F>(hash);
        storage.write(word_number::<F>(anchor, 1), u32::from(first) << 16, 12)?;
    }
    for &(entry, tag, page, link, rights) in rows {
        let word0 = tag | by_form::<F>(page, page << 1);
        storage.write(word_number::<F>(entry, 0), word0, 15)?;
        storage.write(word_number::<F>(entry, 1), u32::from(link), 3)?;
        storage.write(word_number::<F>(entry, 2), rights, 15)?;
    }
    Ok(())
}
