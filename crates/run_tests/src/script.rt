use exceptions::registers::Exceptions;
use lanes::width::Width;
use paging::address::EffectiveAddress;
use refusals::refusal::Refusal;
use runs::call::{Call, Reply};
use std::alloc::{AllocError, Global};
use unit_state::answer::{Access, Compared, Fault};
use unit_state::state::PageMark;

// A call and the reply that it is to get.
pub(crate) type Line = (Call, Reply);

pub(crate) fn loads(address: EffectiveAddress, width: Width, reply: Reply) -> Line {
    (Call::Load(address, width), reply)
}

pub(crate) fn stores(address: EffectiveAddress, width: Width, value: u32, reply: Reply) -> Line {
    (Call::Store(address, width, value), reply)
}

// The value of an accepted store is 0.
pub(crate) fn accepted(value: u32, compared: Compared) -> Reply {
    Reply::Request(Ok(Access { value, compared }))
}

pub(crate) fn refused(refusal: Refusal, compared: Compared) -> Reply {
    Reply::Request(Err(Fault { refusal, compared }))
}

pub(crate) fn shows(exceptions: Exceptions) -> Line {
    (Call::ReadExceptions, Reply::Exceptions(exceptions))
}

pub(crate) fn has_mark(page: u32, mark: PageMark) -> Line {
    (Call::ReadMark(page), Reply::Mark(Ok(mark)))
}

// A call that clears or purges, and is not refused.
pub(crate) fn done(call: Call) -> Line {
    (call, Reply::Cleared(Ok(())))
}

// Calls, and the reply that each is to get.
#[derive(Drop)]
pub(crate) struct Script {
    pub calls: Vec<Call>,
    pub replies: Vec<Reply>,
}

impl Script {
    pub(crate) fn new(heap: Global) -> Script {
        Script {
            calls: Vec::new(heap),
            replies: Vec::new(heap),
        }
    }

    pub(crate) fn add(&mut self, lines: &[Line]) -> Result<(), AllocError> {
        for &(call, reply) in lines {
            self.calls.push(call)?;
            self.replies.push(reply)?;
        }
        Ok(())
    }
}

pub(crate) fn script_of(heap: Global, lines: &[Line]) -> Result<Script, AllocError> {
    let mut script = Script::new(heap);
    script.add(lines)?;
    Ok(script)
}
