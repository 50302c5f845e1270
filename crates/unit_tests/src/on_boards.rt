use crate::support::zeros;
use boards::interleaved::Interleaved;
use boards::ram::RamBoard;
use boards::stacked::Stacked;
use dump_board::board::DumpBoard;
use std::alloc::Global;
use std::process::Abort;
use std::test::Fail;
use storage::words::Storage;

// What is to be tested on several boards. A trait, since a closure is for one make of board.
pub(crate) trait BoardTest {
    fn on<S: Storage>(&self, rt: &impl Abort, board: &mut S) -> Result<(), Fail>;
}

// The blocks of a dump in reverse: block b has page 31 - b.
pub(crate) const REVERSED: [u16; 32] = [
    31, 30, 29, 28, 27, 26, 25, 24, 23, 22, 21, 20, 19, 18, 17, 16, 15, 14, 13, 12, 11, 10, 9, 8,
    7, 6, 5, 4, 3, 2, 1, 0,
];

// Each of these tests 64 KiB of zeros, and hands back the bytes that the test left. Here they lie in their order.
pub(crate) fn on_ram_board<T: BoardTest>(
    rt: &impl Abort,
    heap: Global,
    test: &T,
) -> Result<Vec<u8>, Fail> {
    let mut bytes = zeros(heap)?;
    test.on(rt, &mut RamBoard::new(&mut bytes))?;
    assert_eq!(rt; bytes.len(), 65536);
    Ok(bytes)
}

// In blocks of 2,048 bytes, each of which holds the page beside its number.
pub(crate) fn on_dump_board<T: BoardTest>(
    rt: &impl Abort,
    heap: Global,
    pages: &[u16],
    test: &T,
) -> Result<Vec<u8>, Fail> {
    let mut bytes = zeros(heap)?;
    let mut board = DumpBoard::new(&mut bytes);
    board.fill(pages)?;
    test.on(rt, &mut board)?;
    assert_eq!(rt; bytes.len(), 65536);
    Ok(bytes)
}

// Even words in one storage and odd words in the other, each of half the bytes. Hands back those of the odd words.
pub(crate) fn on_interleaved_pair<T: BoardTest>(
    rt: &impl Abort,
    heap: Global,
    test: &T,
) -> Result<Vec<u8>, Fail> {
    let mut even = vec![in heap; 0u8; 32768]?;
    let mut odd = vec![in heap; 0u8; 32768]?;
    let mut pair = Interleaved::new(RamBoard::new(&mut even), RamBoard::new(&mut odd));
    test.on(rt, &mut pair)?;
    assert_eq!(rt; odd.len(), 32768);
    Ok(odd)
}

// One storage behind the other, of so many bytes below and above. Hands back those above.
pub(crate) fn on_stacked_pair<T: BoardTest>(
    rt: &impl Abort,
    heap: Global,
    below: usize,
    above: usize,
    test: &T,
) -> Result<Vec<u8>, Fail> {
    let mut low = vec![in heap; 0u8; below]?;
    let mut high = vec![in heap; 0u8; above]?;
    let mut pair = Stacked::new(RamBoard::new(&mut low), RamBoard::new(&mut high));
    test.on(rt, &mut pair)?;
    assert_eq!(rt; high.len(), above);
    Ok(high)
}

// Checks a byte that a test left.
pub(crate) fn has_byte(rt: &impl Abort, bytes: &[u8], place: usize, byte: u8) {
    assert!(rt; place < bytes.len());
    assert_eq!(rt; bytes[place], byte, "byte {place}");
}
