use exceptions::registers::Exceptions;
use protection::register::SegmentRegister;
use tlb::buffers::Buffers;

// Whether a real page was used, and whether it was stored to, since its mark was last cleared.
#[derive(Clone, Copy, PartialEq, Eq, Default, Debug)]
pub struct PageMark {
    pub referenced: bool,
    pub changed: bool,
}

// All that changes in a unit while it is in use. The transaction ID and the long-stop bit are registers that do not depend on one
// another. The arrays have the length that the machine has, and take no memory from a heap.
#[derive(Clone, Copy)]
pub struct UnitState {
    pub segments: [SegmentRegister; 16],
    pub transaction: u8,
    pub long_stop: bool,
    pub buffers: Buffers,
    pub exceptions: Exceptions,
    // by real page; a storage has 8,192 pages at the most
    pub marks: [PageMark; 8192],
}
