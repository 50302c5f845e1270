use crate::cases::{exchanged, holds, number};
use dump_board::board::DumpBoard;
use refusals::refusal::Refusal;
use std::process::Abort;
use std::test::Fail;
use storage::words::{ReadStorage, Storage};

// Word k of block b is b * 0x01000000 + k: its bytes are b, 0, k / 256 and k % 256. A block has 2,048 bytes.
fn mark(bytes: &mut [u8]) {
    for (at, byte) in bytes.iter_mut().enumerate() {
        *byte = match at % 4 {
            0 => (at / 2048 % 256) as u8,
            1 => 0,
            2 => (at % 2048 / 1024) as u8,
            _ => (at % 1024 / 4) as u8,
        };
    }
}

// Each page number below the length once, the highest first.
fn reverse(pages: &mut [u16]) {
    for (number, page) in pages.iter_mut().rev().enumerate() {
        *page = (number % 65536) as u16;
    }
}

// A board has no words until its directory is filled.
#[test]
fn empty_at_the_start(rt: HostRuntime) {
    let mut bytes = [0u8; 2048];
    let mut board = DumpBoard::new(&mut bytes);
    holds(&rt, &board, &[]);
    assert_eq!(rt; number(board.write(0, 1, 15)), 16);
    assert_eq!(rt; number(board.write(0, 1, 16)), 16);
}

// Block 0 holds page 2, block 1 page 0 and block 2 page 1. So the words of page 0 are those of block 1, those of page 1 of
// block 2, and those of page 2 of block 0.
#[test]
fn shuffled_reads(rt: HostRuntime) {
    let mut bytes = [0u8; 6144];
    mark(&mut bytes);
    let mut board = DumpBoard::new(&mut bytes);
    assert_eq!(rt; number(board.fill(&[2, 0, 1])), 0);
    assert_eq!(rt; board.count(), 1536);
    // the first and the last word of each page, and one within
    for (word, want) in [
        (0, 0x01000000),
        (511, 0x010001ff),
        (512, 0x02000000),
        (812, 0x0200012c),
        (1023, 0x020001ff),
        (1024, 0x00000000),
        (1535, 0x000001ff),
    ] {
        assert_eq!(rt; board.read(word), Ok(want));
    }
    assert_eq!(rt; board.read(1536), Err(Refusal::WordOutside));
    assert_eq!(rt; board.read(u32::MAX), Err(Refusal::WordOutside));
}

// A write reaches its word in the block that holds the page, and no other byte; three bytes behind the blocks are unused.
#[test]
fn shuffled_writes(rt: HostRuntime) {
    // the word, and its first byte: 2,048 for each block before, and four for each word of the block before
    for (word, at) in [
        (0, 2048),
        (511, 4092),
        (512, 4096),
        (1023, 6140),
        (1024, 0),
        (1535, 2044),
    ] {
        let mut bytes = [0u8; 6147];
        mark(&mut bytes);
        let mut want = bytes;
        assert!(rt; at < 6144);
        want[at] = 0xa1;
        want[at + 2] = 0xc3;
        want[at + 3] = 0xd4;
        let mut board = DumpBoard::new(&mut bytes);
        assert_eq!(rt; number(board.fill(&[2, 0, 1])), 0);
        // mask 11 leaves the second byte
        assert_eq!(rt; number(board.write(word, 0xa1b2c3d4, 11)), 0);
        assert_eq!(rt; board.read(word), Ok(0xa100c3d4));
        assert!(rt; bytes == want);
    }
}

// A refused write alters nothing: 16 for a word outside, and only else 17 for a mask above 15.
#[test]
fn refused_writes(rt: HostRuntime) {
    let mut bytes = [0u8; 4096];
    mark(&mut bytes);
    let before = bytes;
    let mut board = exchanged(&rt, &mut bytes);
    for (word, mask, want) in [
        (1024, 15, 16),
        (1024, 16, 16),
        (u32::MAX, 255, 16),
        (1023, 16, 17),
        (0, 255, 17),
    ] {
        assert_eq!(rt; number(board.write(word, 0xaabbccdd, mask)), want);
        assert_eq!(rt; board.count(), 1024);
    }
    assert!(rt; bytes == before);
}

// A list that is no directory is refused with 18 by a new board, which stays empty, and by one that has a directory,
// which keeps it: here two blocks that hold each other's page, so that page 0 is in block 1.
fn no_directory(rt: &impl Abort, pages: &[u16], case: &str) {
    let mut bytes = [0u8; 4096];
    mark(&mut bytes);
    let mut board = DumpBoard::new(&mut bytes);
    assert_eq!(rt; number(board.fill(pages)), 18, "{case}");
    holds(rt, &board, &[]);
    assert_eq!(rt; number(board.fill(&[1, 0])), 0, "{case}");
    assert_eq!(rt; number(board.fill(pages)), 18, "{case}");
    assert_eq!(rt; board.count(), 1024, "{case}");
    assert_eq!(rt; board.read(0), Ok(0x01000000), "{case}");
    assert_eq!(rt; board.read(1023), Ok(0x000001ff), "{case}");
}

// Each page number below the length stands in a directory exactly once, and no other number.
#[test]
fn refused_directories(rt: HostRuntime) {
    no_directory(&rt, &[0, 0], "page 0 twice");
    no_directory(&rt, &[0, 1, 2, 1], "page 1 twice, and page 3 missing");
    no_directory(&rt, &[1], "page 1 of one page");
    no_directory(&rt, &[0, 2], "a page at the length, and page 1 missing");
    no_directory(&rt, &[65535, 0], "a page far outside");
}

// A directory has at most 1,024 pages, even if each of more stands exactly once.
#[test]
fn too_many_pages(rt: HostRuntime) {
    let mut pages = [0u16; 1025];
    reverse(&mut pages);
    no_directory(&rt, &pages, "1,025 pages");
}

// A list of no pages is a directory, and takes the words of the one before.
#[test]
fn no_pages(rt: HostRuntime) {
    let mut bytes = [0u8; 2048];
    let mut board = DumpBoard::new(&mut bytes);
    assert_eq!(rt; number(board.fill(&[])), 0);
    holds(&rt, &board, &[]);
    assert_eq!(rt; number(board.fill(&[0])), 0);
    assert_eq!(rt; board.count(), 512);
    assert_eq!(rt; number(board.fill(&[])), 0);
    holds(&rt, &board, &[]);
}

// A board of fewer bytes than its blocks need has no words, though the directory is taken.
#[test]
fn too_few_bytes(rt: HostRuntime) {
    // the bytes lent, and the words of two blocks and of one
    for (length, two, one) in [
        (0, 0, 0),
        (2047, 0, 0),
        (2048, 0, 512),
        (4095, 0, 512),
        (4096, 1024, 512),
        (4099, 1024, 512),
    ] {
        assert!(rt; length <= 4099);
        let mut bytes = [0u8; 4099];
        let mut board = exchanged(&rt, &mut bytes[..length]);
        assert_eq!(rt; board.count(), two);
        assert_eq!(rt; board.read(two), Err(Refusal::WordOutside));
        assert_eq!(rt; number(board.write(two, 1, 15)), 16);
        assert_eq!(rt; number(board.fill(&[0])), 0);
        assert_eq!(rt; board.count(), one);
        assert!(rt; bytes == [0u8; 4099]);
    }
}

// A full directory in reverse order: page 0 is in block 1,023, which begins at byte 2,095,104, and page 1,023 in block 0,
// whose last word begins at byte 2,044.
#[test]
fn full_directory(rt: HostRuntime) -> Result<(), Fail> {
    let mut pages = [0u16; 1024];
    reverse(&mut pages);
    let mut bytes = vec![in rt.alloc(); 0u8; 2_097_152]?;
    let mut board = DumpBoard::new(&mut bytes);
    assert_eq!(rt; number(board.fill(&pages)), 0);
    assert_eq!(rt; board.count(), 524_288);
    assert_eq!(rt; number(board.write(0, 0x01020304, 15)), 0);
    assert_eq!(rt; number(board.write(524_287, 0x05060708, 15)), 0);
    assert_eq!(rt; number(board.write(524_288, 0x090a0b0c, 15)), 16);
    assert!(rt; bytes.len() == 2_097_152);
    assert_eq!(rt;
        &bytes[2_095_100..2_095_112],
        [0u8, 0, 0, 0, 1, 2, 3, 4, 0, 0, 0, 0].as_slice()
    );
    assert_eq!(rt;
        &bytes[2_040..2_052],
        [0u8, 0, 0, 0, 5, 6, 7, 8, 0, 0, 0, 0].as_slice()
    );
    Ok(())
}
