ghost use Rattle.std.specs.Prelude.{◌≡◌, slice_index_or, slice_set};
ghost use Rattle.unit_state.specs.Answers.{passed, unless};
ghost use Rattle.unit_state.specs.Registers.{absent, number_refusal, register_refusal};
ghost use Rattle.unit_state.specs.State.{with_segments, with_transaction, with_long_search};

use crate::unit::MemoryUnit;
use paging::form::PageForm;
use protection::register::SegmentRegister;
use refusals::refusal::Refusal;

impl<F: PageForm> MemoryUnit<F> {
    // Writes a segment register.
    pub fn write_segment(&mut self, number: u32, register: SegmentRegister) -> Result<(), Refusal>
        ensures answer { result ≡ passed (register_refusal number register) tt }
        ensures state { self.new.state ≡ unless (register_refusal number register) self.old.state (with_segments self.old.state (slice_set self.old.state.segments number register)) }
        ensures plan { self.new.plan ≡ self.old.plan }
    {
        if number > 15 || register.segment > 4095 {
            return Err(Refusal::RegisterOutside);
        }
        self.state.segments[number as usize] = register;
        Ok(())
    }

    // What a segment register holds.
    pub fn segment(&self, number: u32) -> Result<SegmentRegister, Refusal>
        ensures { result ≡ passed (number_refusal number) (slice_index_or self.now.state.segments number absent) }
    {
        if number > 15 {
            return Err(Refusal::RegisterOutside);
        }
        Ok(self.state.segments[number as usize])
    }

    // Writes the transaction ID, which special segments are used under.
    pub fn write_transaction(&mut self, transaction: u8)
        ensures state { self.new.state ≡ with_transaction self.old.state transaction }
        ensures plan { self.new.plan ≡ self.old.plan }
    {
        self.state.transaction = transaction;
    }

    // The transaction ID.
    pub fn transaction(&self) -> u8
        ensures { result ≡ self.now.state.transaction }
    {
        self.state.transaction
    }

    // Writes the long-stop bit: a walk then stops after 127 entries.
    pub fn write_long_stop(&mut self, on: bool)
        ensures state { self.new.state ≡ with_long_search self.old.state on }
        ensures plan { self.new.plan ≡ self.old.plan }
    {
        self.state.long_stop = on;
    }

    // The long-stop bit.
    pub fn long_stop(&self) -> bool
        ensures { result ≡ self.now.state.long_stop }
    {
        self.state.long_stop
    }
}
