use crate::cases::{
    exchanged, holds, number, refuses_behind_two_words, takes_four_writes, writes_beside_a_dump,
};
use boards::interleaved::Interleaved;
use boards::ram::RamBoard;
use boards::stacked::Stacked;
use std::process::Abort;
use storage::words::Storage;

// The words of the first storage, and behind them all those of the second; the spare bytes of the first leave no gap.
#[test]
fn second_behind_first(rt: HostRuntime) {
    let words = [0x01000000, 0x01000001, 0x02000000, 0x02000001, 0x02000002];
    // the bytes of the first and of the second, and where among these words the pair's begin and end
    for (one, other, begin, end) in [
        (9, 12, 0, 5),
        (8, 4, 0, 3),
        (8, 0, 0, 2),
        (3, 12, 2, 5),
        (0, 7, 2, 3),
        (0, 0, 2, 2),
    ] {
        assert!(rt; one <= 9 && other <= 12 && begin <= end && end <= 5);
        let mut first = [1u8, 0, 0, 0, 1, 0, 0, 1, 1];
        let mut second = [2u8, 0, 0, 0, 2, 0, 0, 1, 2, 0, 0, 2];
        let low = RamBoard::new(&mut first[..one]);
        let high = RamBoard::new(&mut second[..other]);
        holds(&rt, &Stacked::new(low, high), &words[begin..end]);
    }
}

// A write reaches the storage that has the word, the last of the first and the first of the second too, and the mask goes
// with it.
#[test]
fn writes_on_both_sides(rt: HostRuntime) {
    let mut first = [0u8; 11];
    let mut second = [0u8; 8];
    let pair = Stacked::new(RamBoard::new(&mut first), RamBoard::new(&mut second));
    takes_four_writes(&rt, pair);
    assert_eq!(rt;
        first,
        [0x11u8, 0x22, 0x33, 0x44, 0xaa, 0, 0, 0xdd, 0, 0, 0]
    );
    assert_eq!(rt; second, [0u8, 0xbb, 0, 0, 0x55, 0x66, 0x77, 0x88]);
}

// A refused write alters nothing in either storage: 16 at the pair's count, and only else 17 for a mask above 15.
#[test]
fn refused_writes(rt: HostRuntime) {
    let mut first = [1u8, 2, 3, 4];
    let mut second = [5u8, 6, 7, 8, 9];
    let pair = Stacked::new(RamBoard::new(&mut first), RamBoard::new(&mut second));
    refuses_behind_two_words(&rt, pair, [0x01020304, 0x05060708]);
}

// Pairs stand in pairs. The second is an interleaved pair of two words and one, which has two words.
#[test]
fn over_an_interleaved_pair(rt: HostRuntime) {
    let mut a = [1u8, 1, 1, 1];
    let mut b = [2u8, 2, 2, 2, 3, 3, 3, 3];
    let mut c = [4u8, 4, 4, 4];
    let turns = Interleaved::new(RamBoard::new(&mut b), RamBoard::new(&mut c));
    let mut pair = Stacked::new(RamBoard::new(&mut a), turns);
    holds(&rt, &pair, &[0x01010101, 0x02020202, 0x04040404]);
    // word 2 is word 1 of the interleaved pair, which is word 0 of its second
    assert_eq!(rt; number(pair.write(2, 0xaabbccdd, 3)), 0);
    assert_eq!(rt; number(pair.write(3, 0xaabbccdd, 15)), 16);
    assert_eq!(rt; c, [4u8, 4, 0xcc, 0xdd]);
    assert_eq!(rt; b, [2u8, 2, 2, 2, 3, 3, 3, 3]);
}

// A pair behind whose first storage, of one word, a dump stands. Generic, since the check covers no call at a pair of a dump.
fn behind_one_word<A: Storage + Drop, B: Storage + Drop>(rt: &impl Abort, first: A, second: B) {
    writes_beside_a_dump(rt, Stacked::new(first, second), 1025, 1, 0);
}

// A dump board in a pair: block 1 holds page 0, so its word 0, word 1 of the pair, begins at byte 2,048.
#[test]
fn over_a_dump(rt: HostRuntime) {
    let mut ram = [0u8; 4];
    let mut blocks = [0u8; 4096];
    behind_one_word(&rt, RamBoard::new(&mut ram), exchanged(&rt, &mut blocks));
    assert_eq!(rt;
        &blocks[2044..2056],
        [0u8, 0, 0, 0, 1, 2, 3, 4, 0, 0, 0, 0].as_slice()
    );
    assert_eq!(rt; ram, [5u8, 6, 7, 8]);
}
