ghost use Rattle.std.specs.Prelude.{ℕ, List, IfOk, IfErr, ⊤};
ghost use Rattle.paging.specs.Numbers.{PlanNumbers, drafted};
ghost use Rattle.unit_state.specs.declared.state.UnitState.{UnitState};
ghost use Rattle.survey.specs.declared.trouble.Trouble.{Trouble};
ghost use Rattle.survey.specs.Check.{Checked};

use crate::findings::Findings;
use crate::trouble::Trouble;
use paging::draft::Draft;
use paging::form::PageForm;
use std::alloc::Global;
use storage::words::{ReadStorage, Storage};

// What is looked for in an image, whatever board it lies on.
pub trait BoardCheck {
    type Item: Drop;

    // what is found, by the numbers of the plan and the words of the image
    ghost Found: { PlanNumbers → List ℕ → Self → List Self.Item → Type 0 };

    // the unit after that
    ghost left: { PlanNumbers → List ℕ → Self → UnitState };

    // how it may stop; in any way, where an implementation does not say
    ghost Stops: { Trouble → Type 0 } = { λ _. ⊤ };

    // Settles a plan, powers a unit on from it, and looks through the storage with it. The unit is ended then, which gives the
    // plan back.
    fn check_storage<F: PageForm + Drop, S: Storage>(
        &self,
        heap: Global,
        draft: Draft<F>,
        storage: &mut S,
    ) -> Result<(Findings<Self::Item>, Draft<F>), Trouble>
        ensures checked { IfOk result (Checked F.PageForm.sizes draft (Found (drafted F.PageForm.sizes draft) (S.ReadStorage.words storage.old) self.now) (left (drafted F.PageForm.sizes draft) (S.ReadStorage.words storage.old) self.now)) }
        ensures trouble { IfErr result Stops };
}
