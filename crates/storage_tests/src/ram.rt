use crate::cases::{holds, number, refuses};
use boards::ram::RamBoard;
use refusals::refusal::Refusal;
use std::test::Fail;
use storage::words::{ReadStorage, Storage};

// Four bytes to a word, the first byte highest. Up to three bytes at the end are unused, and no bytes are no words.
#[test]
fn four_bytes_to_a_word(rt: HostRuntime) {
    let words = [0x01020304u32, 0x05060708];
    let counts = [0, 0, 0, 0, 1, 1, 1, 1, 2, 2, 2, 2];
    for (length, count) in counts.into_iter().enumerate() {
        assert!(rt; length < 12 && count < 3);
        let mut bytes = [1u8, 2, 3, 4, 5, 6, 7, 8, 9, 10, 11];
        let board = RamBoard::new(&mut bytes[..length]);
        holds(&rt, &board, &words[..count]);
    }
}

// Each bit of the mask that is on replaces its byte, the highest bit the first byte; the words beside stay.
#[test]
fn every_mask(rt: HostRuntime) {
    // 0xaabbccdd over 0x11223344, for the masks 0 to 15
    let want: [u32; 16] = [
        0x11223344, 0x112233dd, 0x1122cc44, 0x1122ccdd, 0x11bb3344, 0x11bb33dd, 0x11bbcc44,
        0x11bbccdd, 0xaa223344, 0xaa2233dd, 0xaa22cc44, 0xaa22ccdd, 0xaabb3344, 0xaabb33dd,
        0xaabbcc44, 0xaabbccdd,
    ];
    for (mask, word) in (0..16).zip(want) {
        let mut bytes = [1u8, 2, 3, 4, 0x11, 0x22, 0x33, 0x44, 9, 10, 11, 12];
        let mut board = RamBoard::new(&mut bytes);
        assert_eq!(rt; board.write(1, 0xaabbccdd, mask), Ok(()));
        holds(&rt, &board, &[0x01020304, word, 0x090a0b0c]);
    }
}

// A word number at or above the count is refused with 16, and only else a mask above 15 with 17. Nothing is altered.
#[test]
fn refused_writes(rt: HostRuntime) {
    let mut bytes = [1u8, 2, 3, 4, 5, 6, 7, 8, 9];
    // the word, the mask and the number of the refusal; two words lie in nine bytes
    let cases = [
        (2, 15, 16),
        (2, 0, 16),
        (2, 16, 16),
        (u32::MAX, 255, 16),
        (0x40000000, 15, 16),
        (0, 16, 17),
        (1, 16, 17),
        (1, 31, 17),
        (0, 255, 17),
    ];
    let mut board = RamBoard::new(&mut bytes);
    refuses(
        &rt,
        &mut board,
        0xaabbccdd,
        &cases,
        &[0x01020304, 0x05060708],
    );
    assert_eq!(rt; bytes, [1u8, 2, 3, 4, 5, 6, 7, 8, 9]);
}

// What was written is in the lent bytes once the board is gone, and the spare bytes are as they were.
#[test]
fn written_to_the_lender(rt: HostRuntime) {
    let mut bytes = [1u8, 2, 3, 4, 5, 6, 7, 8, 9, 10, 11];
    let mut board = RamBoard::new(&mut bytes);
    // mask 6 is for the two bytes in the middle
    assert_eq!(rt; board.write(1, 0xaabbccdd, 6), Ok(()));
    assert_eq!(rt; board.write(0, 0xaabbccdd, 15), Ok(()));
    assert_eq!(rt;
        bytes,
        [0xaau8, 0xbb, 0xcc, 0xdd, 5, 0xbb, 0xcc, 8, 9, 10, 11]
    );
}

// A board reads what was written last, byte by byte: the second write goes over the first one's last two bytes.
#[test]
fn written_over(rt: HostRuntime) {
    let mut bytes = [0u8; 4];
    let mut board = RamBoard::new(&mut bytes);
    assert_eq!(rt; board.write(0, 0x11223344, 15), Ok(()));
    assert_eq!(rt; board.write(0, 0xaabbccdd, 3), Ok(()));
    holds(&rt, &board, &[0x1122ccdd]);
}

// Nothing beyond 16 MiB is used, which are 4,194,304 words: the last of them begins at byte 16,777,212.
#[test]
fn beyond_the_limit(rt: HostRuntime) -> Result<(), Fail> {
    let mut bytes = vec![in rt.alloc(); 7u8; 16_777_224]?;
    let mut board = RamBoard::new(&mut bytes);
    assert_eq!(rt; board.count(), 4_194_304);
    assert_eq!(rt; board.read(4_194_304), Err(Refusal::WordOutside));
    assert_eq!(rt; number(board.write(4_194_304, 0, 15)), 16);
    assert_eq!(rt; number(board.write(4_194_303, 0x01020304, 15)), 0);
    assert_eq!(rt; board.read(4_194_303), Ok(0x01020304));
    assert!(rt; bytes.len() == 16_777_224);
    assert_eq!(rt;
        &bytes[16_777_208..],
        [7u8, 7, 7, 7, 1, 2, 3, 4, 7, 7, 7, 7, 7, 7, 7, 7].as_slice()
    );
    Ok(())
}
