// What the tests of every board share.
use dump_board::board::DumpBoard;
use refusals::refusal::Refusal;
use std::process::Abort;
use storage::words::{ReadStorage, Storage};

// The number of the reason, 0 where the call is accepted.
pub fn number(answer: Result<(), Refusal>) -> u8 {
    match answer {
        Ok(()) => 0,
        Err(refusal) => refusal.number(),
    }
}

// A storage has exactly these words: each is read, and a word number at or above the count is refused.
pub fn holds<S: ReadStorage>(rt: &impl Abort, storage: &S, want: &[u32]) {
    let count = storage.count();
    assert_eq!(rt; count as usize, want.len());
    for (n, &word) in (0..count).zip(want) {
        assert_eq!(rt; storage.read(n), Ok(word));
    }
    assert_eq!(rt; storage.read(count), Err(Refusal::WordOutside));
    assert_eq!(rt; storage.read(u32::MAX), Err(Refusal::WordOutside));
}

// Each write, to a word under a mask, is refused with its number, and the words stay.
pub fn refuses<S: Storage>(
    rt: &impl Abort,
    storage: &mut S,
    value: u32,
    cases: &[(u32, u8, u8)],
    words: &[u32],
) {
    for &(word, mask, want) in cases {
        assert_eq!(rt; number(storage.write(word, value, mask)), want);
        holds(rt, storage, words);
    }
}

// A refused write to a pair of two words alters nothing: 16 at the pair's count, and only else 17 for a mask above 15.
pub fn refuses_behind_two_words<S: Storage + Drop>(rt: &impl Abort, mut pair: S, words: [u32; 2]) {
    let cases = [
        (2, 15, 16),
        (2, 16, 16),
        (u32::MAX, 255, 16),
        (0, 16, 17),
        (1, 255, 17),
    ];
    refuses(rt, &mut pair, 0, &cases, &words);
}

// Four words of zeros are written, two of them in part: mask 9 is for the first and the last byte, mask 4 for the second.
pub fn takes_four_writes<S: Storage + Drop>(rt: &impl Abort, mut pair: S) {
    for (word, value, mask) in [
        (0, 0x11223344, 15),
        (1, 0xaabbccdd, 9),
        (2, 0xaabbccdd, 4),
        (3, 0x55667788, 15),
    ] {
        assert_eq!(rt; number(pair.write(word, value, mask)), 0);
    }
    holds(rt, &pair, &[0x11223344, 0xaa0000dd, 0x00bb0000, 0x55667788]);
}

// A dump of two blocks that hold each other's page, so that page 0 is in block 1.
pub fn exchanged<'a>(rt: &impl Abort, blocks: &'a mut [u8]) -> DumpBoard<'a> {
    let mut dump = DumpBoard::new(blocks);
    assert_eq!(rt; number(dump.fill(&[1, 0])), 0);
    dump
}

// A pair of a RAM board and a dump has so many words; one word that lies in the dump is written, and one in the board.
pub fn writes_beside_a_dump<S: Storage + Drop>(
    rt: &impl Abort,
    mut pair: S,
    count: u32,
    dump: u32,
    board: u32,
) {
    assert_eq!(rt; pair.count(), count);
    assert_eq!(rt; number(pair.write(dump, 0x01020304, 15)), 0);
    assert_eq!(rt; number(pair.write(board, 0x05060708, 15)), 0);
    assert_eq!(rt; number(pair.write(count, 0, 15)), 16);
    assert_eq!(rt; pair.read(dump), Ok(0x01020304));
    assert_eq!(rt; pair.read(count), Err(Refusal::WordOutside));
}
