ghost use Rattle.std.specs.Prelude.{◌≡◌};
ghost use Rattle.runs.specs.SetUp.{written_by, set_up};

use mmu::unit::MemoryUnit;
use paging::form::PageForm;
use protection::register::SegmentRegister;

// A write of one of the registers before a run.
#[derive(Clone, Copy)]
pub enum RegisterWrite {
    Segment(u32, SegmentRegister),
    Transaction(u8),
    LongStop(bool),
}

// Writes a register. A write that is refused alters nothing.
fn write_register<F: PageForm>(unit: &mut MemoryUnit<F>, write: RegisterWrite)
    ensures state { unit.new.state ≡ written_by unit.old.state write }
    ensures plan { unit.new.plan ≡ unit.old.plan }
{
    match write {
        RegisterWrite::Segment(number, register) => {
            let _ = unit.write_segment(number, register);
        }
        RegisterWrite::Transaction(transaction) => unit.write_transaction(transaction),
        RegisterWrite::LongStop(on) => unit.write_long_stop(on),
    }
}

// Writes the registers, one after the other. What is refused goes by.
pub fn write_registers<F: PageForm>(unit: &mut MemoryUnit<F>, writes: &[RegisterWrite])
    ensures state { unit.new.state ≡ set_up unit.old.state writes.now }
    ensures plan { unit.new.plan ≡ unit.old.plan }
{
    for write in writes {
        write_register(unit, *write);
    }
}
