use crate::support::virtual_page;
use page_table::decode::{anchor_of, entry_of, link_of, tag_of};
use page_table::entry::{Anchor, Link, PageEntry};
use paging::form::{Form2K, Form4K, PageForm};
use std::process::Abort;

// Word 2, its write bit, transaction ID and lock bits. Bit b of a word counts 2^(31 - b).
const RIGHTS: [(u32, bool, u8, u16); 9] = [
    (0x0000_0000, false, 0, 0),
    // bits 0 to 6 are reserved
    (0xfe00_0000, false, 0, 0),
    // bit 7 is the write bit
    (0x0100_0000, true, 0, 0),
    // bits 8 and 15, the highest and the lowest of the transaction ID
    (0x0080_0000, false, 0x80, 0),
    (0x0001_0000, false, 1, 0),
    // bits 16 and 31, the highest and the lowest of the lock bits
    (0x0000_8000, false, 0, 0x8000),
    (0x0000_0001, false, 0, 1),
    // every field, and then every bit
    (0x01ff_ffff, true, 255, 0xffff),
    (0xffff_ffff, true, 255, 0xffff),
];

// Word 0, its key, segment ID and page number in 2K. The page number has bits 15 to 31.
const TAGS_2K: [(u32, u8, u16, u32); 11] = [
    (0x0000_0000, 0, 0, 0),
    // bits 0 and 1 are the key
    (0x8000_0000, 2, 0, 0),
    (0x4000_0000, 1, 0, 0),
    // bit 2 is reserved
    (0x2000_0000, 0, 0, 0),
    // bits 3 and 14, the highest and the lowest of the segment ID
    (0x1000_0000, 0, 0x800, 0),
    (0x0002_0000, 0, 1, 0),
    // bits 15 and 31, the highest and the lowest of the page number, and bit 30
    (0x0001_0000, 0, 0, 0x1_0000),
    (0x0000_0002, 0, 0, 2),
    (0x0000_0001, 0, 0, 1),
    // every field, and then every bit
    (0xdfff_ffff, 3, 0xfff, 0x1_ffff),
    (0xffff_ffff, 3, 0xfff, 0x1_ffff),
];

// The same in 4K. The page number has bits 15 to 30, and bit 31 is reserved.
const TAGS_4K: [(u32, u8, u16, u32); 12] = [
    (0x0000_0000, 0, 0, 0),
    (0x8000_0000, 2, 0, 0),
    (0x4000_0000, 1, 0, 0),
    (0x2000_0000, 0, 0, 0),
    (0x1000_0000, 0, 0x800, 0),
    (0x0002_0000, 0, 1, 0),
    (0x0001_0000, 0, 0, 0x8000),
    (0x0000_0002, 0, 0, 1),
    (0x0000_0001, 0, 0, 0),
    (0x2000_0001, 0, 0, 0),
    (0xdfff_fffe, 3, 0xfff, 0xffff),
    (0xffff_ffff, 3, 0xfff, 0xffff),
];

// The key and the tag are as word 0 says, whatever word 2 is, and the write bit, transaction ID and lock bits as word 2 says,
// whatever word 0 is.
fn says<F: PageForm>(rt: &impl Abort, cases: &[(u32, u8, u16, u32)]) {
    for &(word0, key, segment, page) in cases {
        let tag = virtual_page(segment, page);
        assert_eq!(rt; tag_of::<F>(word0), tag, "word 0 is {word0}");
        for (word2, write, transaction, locks) in RIGHTS {
            let entry = PageEntry {
                key,
                tag,
                write,
                transaction,
                locks,
            };
            assert_eq!(rt;
                entry_of::<F>(word0, word2),
                entry,
                "word 0 is {word0}, word 2 is {word2}"
            );
        }
    }
}

// Each field alone at its highest and at its lowest bit, all reserved bits, all fields, and every bit.
#[test]
fn fields_of_words_0_and_2(rt: HostRuntime) {
    says::<Form2K>(&rt, &TAGS_2K);
    says::<Form4K>(&rt, &TAGS_4K);
}

// Word 1: bit 0 says that the anchor is empty, bits 3 to 15 are its pointer, bit 16 says that the entry is the last of its
// chain, and bits 19 to 31 are its pointer. Bits 1, 2, 17 and 18 are reserved.
#[test]
fn fields_of_word_1(rt: HostRuntime) {
    for (word1, empty, first, last, next) in [
        (0x0000_0000, false, 0, false, 0),
        (0x8000_0000, true, 0, false, 0),
        (0x4000_0000, false, 0, false, 0),
        (0x2000_0000, false, 0, false, 0),
        (0x1000_0000, false, 4096, false, 0),
        (0x0001_0000, false, 1, false, 0),
        (0x0000_8000, false, 0, true, 0),
        (0x0000_4000, false, 0, false, 0),
        (0x0000_2000, false, 0, false, 0),
        (0x0000_1000, false, 0, false, 4096),
        (0x0000_0001, false, 0, false, 1),
        (0x6000_6000, false, 0, false, 0),
        (0x9fff_9fff, true, 8191, true, 8191),
        (0xffff_ffff, true, 8191, true, 8191),
    ] {
        assert_eq!(rt; anchor_of(word1), Anchor { empty, first }, "{word1}");
        assert_eq!(rt; link_of(word1), Link { last, next }, "{word1}");
    }
}
