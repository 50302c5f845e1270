use exceptions::registers::Exceptions;
use lanes::width::Width;
use paging::address::EffectiveAddress;
use refusals::refusal::Refusal;
use unit_state::answers::Answer;
use unit_state::state::PageMark;

// What can be asked of a unit during a run.
#[derive(Clone, Copy)]
pub enum Call {
    Load(EffectiveAddress, Width),
    Store(EffectiveAddress, Width, u32),
    ReadExceptions,
    ClearExceptions,
    ReadMark(u32),
    ClearMark(u32),
    PurgeAll,
    PurgeSegment(u32),
    PurgePage(EffectiveAddress),
}

// What a unit answers to it.
#[derive(Clone, Copy, PartialEq, Eq, Debug)]
pub enum Reply {
    Request(Answer),
    Exceptions(Exceptions),
    Mark(Result<PageMark, Refusal>),
    // of a call that clears or purges
    Cleared(Result<(), Refusal>),
}
