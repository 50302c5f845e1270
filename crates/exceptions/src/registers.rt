use paging::address::EffectiveAddress;

// Why the unit raises an exception.
#[derive(Clone, Copy, PartialEq, Eq, Debug)]
pub enum Exception {
    SegmentBarred,
    PageFault,
    LongSearch,
    Protection,
    Lock,
}

// The five bits of the memory exception register that say what was raised.
#[derive(Clone, Copy, PartialEq, Eq, Default, Debug)]
pub struct Causes {
    pub segment_barred: bool,
    pub page_fault: bool,
    pub long_stop: bool,
    pub protection: bool,
    pub lock: bool,
}

// The memory exception register (MER): what was raised, whether more than one exception was, and whether the one whose address
// is kept was a load; the memory exception address register (MEAR); and whether that is locked: a flag, and no `Option` of the
// address, which an unlocked register keeps.
#[derive(Clone, Copy, PartialEq, Eq, Default, Debug)]
pub struct Exceptions {
    pub causes: Causes,
    pub multiple: bool,
    pub load: bool,
    pub address: EffectiveAddress,
    pub locked: bool,
}
