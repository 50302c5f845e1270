ghost use Rattle.std.specs.Prelude.{◌≡◌, IfOk};
ghost use Rattle.runs.specs.Fold.{replies_from, state_from};
ghost use Rattle.survey.specs.Check.{prepared, Checked, StopsCheck};

use crate::board_check::BoardCheck;
use crate::findings::Findings;
use crate::page_marks::page_marks;
use crate::trouble::Trouble;
use mmu::unit::MemoryUnit;
use paging::draft::Draft;
use paging::form::PageForm;
use protection::register::SegmentRegister;
use runs::call::{Call, Reply};
use runs::running::run;
use runs::set_up::{RegisterWrite, write_registers};
use std::alloc::Global;
use storage::words::{ReadStorage, Storage};

// Two registers for one segment: pages with key 01 can be read and written through the first, and only read through the second.
const READ_WRITE: SegmentRegister = SegmentRegister {
    present: true,
    barred: false,
    segment: 5,
    special: false,
    key: false,
};

const READ_ONLY: SegmentRegister = SegmentRegister {
    key: true,
    ..READ_WRITE
};

// The writes of both, before the calls of a check.
pub const REGISTERS: [RegisterWrite; 2] = [
    RegisterWrite::Segment(1, READ_WRITE),
    RegisterWrite::Segment(2, READ_ONLY),
];

// Calls, carried out by a unit whose registers 1 and 2 are for one segment. The signature is the trait's, as each impl writes it.
#[derive(Clone, Copy)]
pub struct CallCheck<'a> {
    pub calls: &'a [Call],
}

#[tactic(auto, unfolding(runs::specs::SetUp::set_up))]
impl<'a> BoardCheck for CallCheck<'a> {
    type Item = Reply;

    ghost Found = { λ plan ws check replies. replies ≡ replies_from plan ws prepared check.calls.now };

    ghost left = { λ plan ws check. state_from plan ws prepared check.calls.now };

    ghost Stops = { StopsCheck };

    fn check_storage<F: PageForm + Drop, S: Storage>(
        &self,
        heap: Global,
        draft: Draft<F>,
        storage: &mut S,
    ) -> Result<(Findings<Reply>, Draft<F>), Trouble> {
        let plan = draft.settle()?;
        let mut unit = MemoryUnit::power_on(plan);
        write_registers(&mut unit, &REGISTERS);
        let found = run(heap, &mut unit, storage, self.calls)?;
        let pages = page_marks(heap, &unit)?;
        Ok((Findings { found, pages }, unit.end()))
    }
}
