ghost use Rattle.std.specs.Prelude.{◌≡◌, ◌≤◌, [], length, vec_capacity, IfOk, IfSome, MatchResult};
ghost use Rattle.paging.specs.Numbers.{numbers_of, drafted};
ghost use Rattle.unit_state.specs.State.{powered_on};
ghost use Rattle.runs.specs.Fold.{replies_from, words_from, Replied};
ghost use Rattle.runs.specs.SetUp.{set_up};
ghost use Rattle.runs.specs.Law.{Twice};
ghost use Rattle.runs.specs.declared.twice.Hindrance.TheVariants.{Refused};
ghost use Rattle.runs.specs.Hindered.{Hinders};

use crate::call::{Call, Reply};
use crate::running::play;
use crate::set_up::{RegisterWrite, write_registers};
use mmu::unit::MemoryUnit;
use paging::draft::{Draft, RefusedDraft};
use paging::form::PageForm;
use paging::plan::SettledPlan;
use refusals::refusal::Refusal;
use std::alloc::Global;
use storage::words::{ReadStorage, Storage};

// What two units replied to the same calls, each on a storage of its own, and the plan of both as the draft that it was.
#[derive(Drop)]
pub struct TwoRuns<F: Drop> {
    pub first: Vec<Reply>,
    pub second: Vec<Reply>,
    pub draft: Draft<F>,
}

// Why nothing was run.
#[derive(Clone, Copy, PartialEq, Eq, Debug)]
pub enum Hindrance {
    Memory,
    Refused(Refusal),
}

// The draft as it was, and why nothing was run.
#[derive(Drop)]
pub struct NotRun<F: Drop> {
    pub draft: Draft<F>,
    pub reason: Hindrance,
}

impl<F: Drop> From<RefusedDraft<F>> for NotRun<F> {
    ghost from_gives = { λ e r. (r.draft ≡ e.draft) × (r.reason ≡ Refused e.refusal) };

    fn from(refused: RefusedDraft<F>) -> NotRun<F> {
        let RefusedDraft { draft, refusal } = refused;
        NotRun {
            draft,
            reason: Hindrance::Refused(refusal),
        }
    }
}

// Powers a unit on, writes its registers and carries the calls out. There is room for the replies.
fn run_alone<F: PageForm, S: Storage>(
    plan: SettledPlan<F>,
    writes: &[RegisterWrite],
    calls: &[Call],
    storage: &mut S,
    replies: &mut Vec<Reply>,
) -> Draft<F>
    requires none { replies.old.items ≡ [] }
    requires room { length calls.now ≤ vec_capacity replies.old }
    ensures replies { replies.new.items ≡ replies_from (numbers_of plan) (S.ReadStorage.words storage.old) (set_up powered_on writes.now) calls.now }
    ensures words { S.ReadStorage.words storage.new ≡ words_from (numbers_of plan) (S.ReadStorage.words storage.old) (set_up powered_on writes.now) calls.now }
    ensures lenders { S.Storage.lenders storage.new ≡ S.Storage.lenders storage.old }
    ensures draft { (result.form ≡ plan.form) × (result.exponent ≡ plan.exponent) × (result.base ≡ plan.base.number) }
{
    let mut unit = MemoryUnit::power_on(plan);
    write_registers(&mut unit, writes);
    play(&mut unit, storage, calls, replies);
    unit.end()
}

// Room for the replies of two runs.
fn replies_for(heap: Global, calls: &[Call]) -> Option<(Vec<Reply>, Vec<Reply>)>
    ensures { IfSome result (λ both. (both.0.items ≡ []) × (length calls.now ≤ vec_capacity both.0) × (both.1.items ≡ []) × (length calls.now ≤ vec_capacity both.1)) }
{
    let one = Vec::with_capacity(heap, calls.len()).ok()?;
    let other = Vec::with_capacity(heap, calls.len()).ok()?;
    Some((one, other))
}

// Carries the same calls out on two storages of any makes, each by a unit of its own. Both are powered on from the plan that the
// draft settles to, and have the same registers written. Memory for the replies is taken first: without it nothing is done.
pub fn run_twice<F: PageForm + Drop, A: Storage, B: Storage>(
    heap: Global,
    draft: Draft<F>,
    writes: &[RegisterWrite],
    calls: &[Call],
    first: &mut A,
    second: &mut B,
) -> Result<TwoRuns<F>, NotRun<F>>
    ensures law { MatchResult result (λ t. Twice (drafted F.PageForm.sizes draft) (set_up powered_on writes.now) calls.now (A.ReadStorage.words first.old) (A.ReadStorage.words first.new) t.first.items (B.ReadStorage.words second.old) (B.ReadStorage.words second.new) t.second.items × (t.draft ≡ draft)) (λ e. (A.ReadStorage.words first.new ≡ A.ReadStorage.words first.old) × (B.ReadStorage.words second.new ≡ B.ReadStorage.words second.old) × (e.draft ≡ draft) × Hinders F.PageForm.sizes draft e.reason) }
    ensures first_run { IfOk result (λ t. Replied (drafted F.PageForm.sizes draft) (A.ReadStorage.words first.old) (A.ReadStorage.words first.new) (set_up powered_on writes.now) calls.now t.first.items) }
    ensures second_run { IfOk result (λ t. Replied (drafted F.PageForm.sizes draft) (B.ReadStorage.words second.old) (B.ReadStorage.words second.new) (set_up powered_on writes.now) calls.now t.second.items) }
    ensures first_lenders { A.Storage.lenders first.new ≡ A.Storage.lenders first.old }
    ensures second_lenders { B.Storage.lenders second.new ≡ B.Storage.lenders second.old }
{
    let Some((mut one, mut other)) = replies_for(heap, calls) else {
        return Err(NotRun {
            draft,
            reason: Hindrance::Memory,
        });
    };
    let plan = draft.settle()?;
    let draft = run_alone(plan, writes, calls, first, &mut one);
    // what settled once settles again
    let plan = draft.settle()?;
    let draft = run_alone(plan, writes, calls, second, &mut other);
    Ok(TwoRuns {
        first: one,
        second: other,
        draft,
    })
}
