ghost use Rattle.unit_state.specs.Sound.{Sound};

use paging::form::PageForm;
use paging::plan::SettledPlan;
use unit_state::state::UnitState;

// A memory management unit in use: the plan that it was powered on from, and its state, which is sound.
#[derive(Drop)]
pub struct MemoryUnit<F: PageForm> {
    pub(crate) plan: SettledPlan<F>,
    pub(crate) state: UnitState,
    ghost sound: { Sound state },
}
