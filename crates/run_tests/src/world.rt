use crate::support::{absent, barred, first_word, ordinary, special};
use crate::tables::{LAST, Row, Start, put_table};
use paging::form::PageForm;
use runs::set_up::RegisterWrite;
use std::test::Fail;
use storage::words::Storage;

// The registers of the long run. 1 and 2 hold one segment, with K 0 and 1, and so do 4, which is absent, and 8, which is barred.
// 3 holds the special segment ABC. Segment 6 has only a page of key 00, and its K is 1. 9 is barred and 10 absent.
pub(crate) fn registers() -> [RegisterWrite; 8] {
    [
        RegisterWrite::Segment(1, ordinary(2, false)),
        RegisterWrite::Segment(2, ordinary(2, true)),
        RegisterWrite::Segment(3, special(0xabc)),
        RegisterWrite::Segment(4, absent(2)),
        RegisterWrite::Segment(6, ordinary(6, true)),
        RegisterWrite::Segment(8, barred(2)),
        RegisterWrite::Segment(9, barred(9)),
        RegisterWrite::Segment(10, absent(10)),
    ]
}

// The chains of its table. Each begins at segment ID XOR page number: 2 XOR 10 is 12. In decimal the anchors are these modulo 32
// in 2K, which are 18, 19, 16, 17, 20, 25, 5, 6, 31, 30, 23 and 24, and modulo 16 in 4K, which are 2, 3, 0, 1, 4, 9, 5, 6, 15,
// 14, 7 and 8: all differ. 2 XOR 16, 36 and 56 are 14, 34 and 54, which have one anchor in both forms. Anchor 29 or 13 is empty.
const CHAINS: [Start; 12] = [
    (0x12, 4),
    (0x13, 5),
    (0x10, 6),
    (0x11, 7),
    (0x14, 9),
    (0xab9, 8),
    (0xaa5, 14),
    (0xaa6, 15),
    (0x1f, 12),
    (0x1e, 13),
    (0x17, 3),
    (0x18, 2),
];

// Its pages. Page 10 + k of segment 2, for k from 0 to 3, lies in real page 4 + k. All is permitted with K 0; with K 1 loads
// alone are if k is even (key 01), and all is if k is odd (10). Pages 16, 36 and 56 of segment 2, with key 01, lie in real pages
// 9, 10 and 11, which are one chain in that order. Page 5 of ABC lies in real page 8, with the write bit on and the lock bits of
// the even lines: all lines permit loads, and those stores.
//
// No load is permitted from the others. In ABC write bit and lock bits are off, or the transaction ID is 1, and 0 in the unit. No
// register has segment 7. Key 00 with K 1 permits nothing. Segment 9 is barred and A absent.
const PAGES: [Row; 14] = [
    (4, 0x4004_0000, 0x10, LAST, 0),
    (5, 0x8004_0000, 0x11, LAST, 0),
    (6, 0x4004_0000, 0x12, LAST, 0),
    (7, 0x8004_0000, 0x13, LAST, 0),
    (9, 0x4004_0000, 0x16, 10, 0),
    (10, 0x4004_0000, 0x36, 11, 0),
    (11, 0x4004_0000, 0x56, LAST, 0),
    (8, 0x1578_0000, 0x05, LAST, 0x0100_aaaa),
    (14, 0x1578_0000, 0x19, LAST, 0),
    (15, 0x1578_0000, 0x1a, LAST, 0x0101_ffff),
    (12, 0x800e_0000, 0x18, LAST, 0),
    (13, 0x000c_0000, 0x18, LAST, 0),
    (3, 0x8012_0000, 0x1e, LAST, 0),
    (2, 0x8014_0000, 0x12, LAST, 0),
];

pub(crate) fn lay_out<F: PageForm, S: Storage>(storage: &mut S, salt: u32) -> Result<(), Fail> {
    fill::<F, S>(storage, salt)?;
    put_table::<F, S>(storage, &CHAINS, &PAGES)
}

// The run can load from real pages 4 to 11, and the table lies in page 0. No accepted call reaches the others.
pub(crate) fn is_out_of_reach<F: PageForm>(n: u32) -> bool {
    n >= first_word::<F>(1) && n < first_word::<F>(4) || n >= first_word::<F>(12)
}

// Before the table is written, each word holds its own number in both halves. Words out of reach are salted.
pub(crate) fn filled<F: PageForm>(n: u32, salt: u32) -> u32 {
    let word = n << 16 | n;
    if is_out_of_reach::<F>(n) {
        word ^ salt
    } else {
        word
    }
}

pub(crate) fn fill<F: PageForm, S: Storage>(storage: &mut S, salt: u32) -> Result<(), Fail> {
    for n in 0..storage.count() {
        storage.write(n, filled::<F>(n, salt), 15)?;
    }
    Ok(())
}
