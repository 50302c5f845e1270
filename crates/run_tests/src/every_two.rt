use boards::interleaved::Interleaved;
use boards::ram::RamBoard;
use boards::stacked::Stacked;
use dump_board::board::DumpBoard;
use std::alloc::{AllocError, Global};
use std::process::Abort;
use std::test::Fail;
use storage::words::Storage;

// What is to be tested on two storages. A trait, since a closure is for one make of each. The test lays out what it needs.
pub(crate) trait PairTest {
    fn on<A: Storage, B: Storage>(
        &self,
        rt: &impl Abort,
        heap: Global,
        first: &mut A,
        second: &mut B,
    ) -> Result<(), Fail>;
}

// The page that each block of the dump holds: block b has page (7 + 11 * b) mod 32.
const SHUFFLED: [u16; 32] = [
    7, 18, 29, 8, 19, 30, 9, 20, 31, 10, 21, 0, 11, 22, 1, 12, 23, 2, 13, 24, 3, 14, 25, 4, 15, 26,
    5, 16, 27, 6, 17, 28,
];

// The bytes of four boards of 64 KiB each.
#[derive(Drop)]
struct Bytes {
    ram: Vec<u8>,
    even: Vec<u8>,
    odd: Vec<u8>,
    low: Vec<u8>,
    high: Vec<u8>,
    dump: Vec<u8>,
}

// A board of each make.
#[derive(Drop)]
struct Makes<'a> {
    ram: RamBoard<'a>,
    interleaved: Interleaved<RamBoard<'a>, RamBoard<'a>>,
    stacked: Stacked<RamBoard<'a>, RamBoard<'a>>,
    dump: DumpBoard<'a>,
}

impl Bytes {
    // The lower storage of the stacked pair ends one word behind the start of page 11 in 2K, which lies in both: 11 * 2,048 + 4
    // is 22,532. In 4K that is in page 5.
    fn new(heap: Global) -> Result<Bytes, AllocError> {
        Ok(Bytes {
            ram: vec![in heap; 0u8; 65536]?,
            even: vec![in heap; 0u8; 32768]?,
            odd: vec![in heap; 0u8; 32768]?,
            low: vec![in heap; 0u8; 22532]?,
            high: vec![in heap; 0u8; 43004]?,
            dump: vec![in heap; 0u8; 65536]?,
        })
    }

    // The dump has no directory yet.
    fn boards(&mut self) -> Makes<'_> {
        Makes {
            ram: RamBoard::new(&mut self.ram),
            interleaved: Interleaved::new(
                RamBoard::new(&mut self.even),
                RamBoard::new(&mut self.odd),
            ),
            stacked: Stacked::new(RamBoard::new(&mut self.low), RamBoard::new(&mut self.high)),
            dump: DumpBoard::new(&mut self.dump),
        }
    }
}

// Beside a board of each make.
fn beside_each<A: Storage, T: PairTest>(
    rt: &impl Abort,
    heap: Global,
    test: &T,
    first: &mut A,
    seconds: &mut Makes,
) -> Result<(), Fail> {
    test.on(rt, heap, first, &mut seconds.ram)?;
    test.on(rt, heap, first, &mut seconds.interleaved)?;
    test.on(rt, heap, first, &mut seconds.stacked)?;
    test.on(rt, heap, first, &mut seconds.dump)
}

// On every two of the four boards, in both orders, and on two of one make: sixteen pairs.
pub(crate) fn on_every_two<T: PairTest>(
    rt: &impl Abort,
    heap: Global,
    test: &T,
) -> Result<(), Fail> {
    let mut one = Bytes::new(heap)?;
    let mut other = Bytes::new(heap)?;
    let mut firsts = one.boards();
    let mut seconds = other.boards();
    firsts.dump.fill(&SHUFFLED)?;
    seconds.dump.fill(&SHUFFLED)?;
    beside_each(rt, heap, test, &mut firsts.ram, &mut seconds)?;
    beside_each(rt, heap, test, &mut firsts.interleaved, &mut seconds)?;
    beside_each(rt, heap, test, &mut firsts.stacked, &mut seconds)?;
    beside_each(rt, heap, test, &mut firsts.dump, &mut seconds)
}
