use crate::cases::{
    exchanged, holds, number, refuses_behind_two_words, takes_four_writes, writes_beside_a_dump,
};
use boards::interleaved::Interleaved;
use boards::ram::RamBoard;
use boards::stacked::Stacked;
use std::process::Abort;
use storage::words::{ReadStorage, Storage};

// Even words are those of the first storage and odd words those of the second, in turn; there are twice as many as the
// shorter one has.
#[test]
fn twice_the_shorter(rt: HostRuntime) {
    let words = [
        0x01000000, 0x02000000, 0x01000001, 0x02000001, 0x01000002, 0x02000002,
    ];
    // the bytes of the first and of the second, and the words of the pair
    for (one, other, count) in [
        (12, 12, 6),
        (12, 8, 4),
        (8, 12, 4),
        (7, 12, 2),
        (12, 4, 2),
        (12, 3, 0),
        (0, 12, 0),
        (0, 0, 0),
    ] {
        assert!(rt; one <= 12 && other <= 12 && count <= 6);
        let mut first = [1u8, 0, 0, 0, 1, 0, 0, 1, 1, 0, 0, 2];
        let mut second = [2u8, 0, 0, 0, 2, 0, 0, 1, 2, 0, 0, 2];
        let low = RamBoard::new(&mut first[..one]);
        let high = RamBoard::new(&mut second[..other]);
        holds(&rt, &Interleaved::new(low, high), &words[..count]);
    }
}

// A write reaches the storage that has the word, at half its number, and the mask goes with it.
#[test]
fn writes_by_turns(rt: HostRuntime) {
    let mut first = [0u8; 12];
    let mut second = [0u8; 8];
    let pair = Interleaved::new(RamBoard::new(&mut first), RamBoard::new(&mut second));
    takes_four_writes(&rt, pair);
    assert_eq!(rt;
        first,
        [0x11u8, 0x22, 0x33, 0x44, 0, 0xbb, 0, 0, 0, 0, 0, 0]
    );
    assert_eq!(rt; second, [0xaau8, 0, 0, 0xdd, 0x55, 0x66, 0x77, 0x88]);
}

// A refused write alters nothing in either storage: 16 at the pair's count, though the first has more words, and only
// else 17 for a mask above 15.
#[test]
fn refused_writes(rt: HostRuntime) {
    let mut first = [1u8, 2, 3, 4, 5, 6, 7, 8];
    let mut second = [9u8, 10, 11, 12];
    let pair = Interleaved::new(RamBoard::new(&mut first), RamBoard::new(&mut second));
    refuses_behind_two_words(&rt, pair, [0x01020304, 0x090a0b0c]);
    assert_eq!(rt; first, [1u8, 2, 3, 4, 5, 6, 7, 8]);
}

// Pairs stand in pairs. The first is a stacked pair of one word and two, so the odd words are those of the board beside.
#[test]
fn over_a_stacked_pair(rt: HostRuntime) {
    let mut a = [1u8, 1, 1, 1];
    let mut b = [2u8, 2, 2, 2, 3, 3, 3, 3];
    let mut c = [4u8, 4, 4, 4, 5, 5, 5, 5, 6, 6, 6, 6];
    let stack = Stacked::new(RamBoard::new(&mut a), RamBoard::new(&mut b));
    let mut pair = Interleaved::new(stack, RamBoard::new(&mut c));
    holds(
        &rt,
        &pair,
        &[
            0x01010101, 0x04040404, 0x02020202, 0x05050505, 0x03030303, 0x06060606,
        ],
    );
    // word 4 is word 2 of the stack, which is word 1 of its second
    assert_eq!(rt; number(pair.write(4, 0xaabbccdd, 12)), 0);
    assert_eq!(rt; pair.read(4), Ok(0xaabb0303));
    assert_eq!(rt; b, [2u8, 2, 2, 2, 0xaa, 0xbb, 3, 3]);
}

// A pair of two storages of 1,024 words. Generic, since the check covers no call at a pair of a dump.
fn by_turns<A: Storage + Drop, B: Storage + Drop>(rt: &impl Abort, first: A, second: B) {
    writes_beside_a_dump(rt, Interleaved::new(first, second), 2048, 1025, 1024);
}

// A dump board in a pair: block 0 holds page 1, so word 512 of the dump, word 1,025 of the pair, begins at its byte 0.
#[test]
fn over_a_dump(rt: HostRuntime) {
    let mut ram = [0u8; 4096];
    let mut blocks = [0u8; 4096];
    by_turns(&rt, RamBoard::new(&mut ram), exchanged(&rt, &mut blocks));
    assert_eq!(rt; &blocks[..8], [1u8, 2, 3, 4, 0, 0, 0, 0].as_slice());
    assert_eq!(rt;
        &ram[2044..2056],
        [0u8, 0, 0, 0, 5, 6, 7, 8, 0, 0, 0, 0].as_slice()
    );
}
