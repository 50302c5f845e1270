ghost use Rattle.std.specs.Prelude.{◌≡◌, replicate};
ghost use Rattle.unit_state.specs.Registers.{absent};
ghost use Rattle.unit_state.specs.State.{no_mark, powered_on};

use crate::unit::MemoryUnit;
use exceptions::registers::Exceptions;
use paging::draft::Draft;
use paging::form::PageForm;
use paging::plan::SettledPlan;
use protection::register::SegmentRegister;
use tlb::buffers::Buffers;
use unit_state::state::{PageMark, UnitState};

fn absent_segments() -> [SegmentRegister; 16]
    ensures { result ≡ replicate 16 absent }
{
    [SegmentRegister::default(); 16]
}

fn unmarked_pages() -> [PageMark; 8192]
    ensures { result ≡ replicate 8192 no_mark }
{
    [PageMark::default(); 8192]
}

impl<F: PageForm> MemoryUnit<F> {
    // A unit as it is after power-on: all segments are absent, no entry of the look-aside buffers is valid, no page is marked,
    // and all else is zero.
    pub fn power_on(plan: SettledPlan<F>) -> MemoryUnit<F>
        ensures plan { result.plan ≡ plan }
        ensures state { result.state ≡ powered_on }
    {
        MemoryUnit {
            plan,
            state: UnitState {
                segments: absent_segments(),
                transaction: 0,
                long_stop: false,
                buffers: Buffers::empty(),
                exceptions: Exceptions::none(),
                marks: unmarked_pages(),
            },
        }
    }

    // The plan that the unit was powered on from.
    pub fn plan(&self) -> &SettledPlan<F>
        ensures { result.now ≡ self.now.plan }
    {
        &self.plan
    }

    // Ends the use of the unit, and gives its plan back as a draft.
    pub fn end(self) -> Draft<F>
        ensures { (result.form ≡ self.plan.form) × (result.exponent ≡ self.plan.exponent) × (result.base ≡ self.plan.base.number) }
    {
        let MemoryUnit { plan, state: _ } = self;
        plan.redraft()
    }
}
