ghost use Rattle.std.specs.Prelude.{◌≡◌, ◌≤◌, [], length, vec_len, vec_capacity, MatchResult};
ghost use Rattle.paging.specs.Numbers.{numbers_of};
ghost use Rattle.runs.specs.Fold.{replies_from, state_from, words_from, Ran};

use crate::call::{Call, Reply};
use crate::carrying::carry_out;
use mmu::unit::MemoryUnit;
use paging::form::PageForm;
use std::alloc::{AllocError, Global};
use storage::words::{ReadStorage, Storage};

// Carries the calls out, one after the other, and keeps the replies, for which there is room.
#[tactic(auto, using(crate::proofs::Going::going_all))]
pub(crate) fn play<F: PageForm, S: Storage>(
    unit: &mut MemoryUnit<F>,
    storage: &mut S,
    calls: &[Call],
    replies: &mut Vec<Reply>,
)
    requires none { replies.old.items ≡ [] }
    requires room { length calls.now ≤ vec_capacity replies.old }
    ensures replies { replies.new.items ≡ replies_from (numbers_of unit.old.plan) (S.ReadStorage.words storage.old) unit.old.state calls.now }
    ensures state { unit.new.state ≡ state_from (numbers_of unit.old.plan) (S.ReadStorage.words storage.old) unit.old.state calls.now }
    ensures words { S.ReadStorage.words storage.new ≡ words_from (numbers_of unit.old.plan) (S.ReadStorage.words storage.old) unit.old.state calls.now }
    ensures plan { unit.new.plan ≡ unit.old.plan }
    ensures lenders { S.Storage.lenders storage.new ≡ S.Storage.lenders storage.old }
{
    for call in calls {
        let reply = carry_out(unit, storage, *call);
        replies.push_reserved(reply);
    }
}

// Carries the calls out, one after the other. Memory for the replies is taken first: without it nothing is done.
pub fn run<F: PageForm, S: Storage>(
    heap: Global,
    unit: &mut MemoryUnit<F>,
    storage: &mut S,
    calls: &[Call],
) -> Result<Vec<Reply>, AllocError>
    ensures run { MatchResult result (λ v. Ran (numbers_of unit.old.plan) (S.ReadStorage.words storage.old) (S.ReadStorage.words storage.new) unit.old.state unit.new.state calls.now v.items) (λ _. (unit.new.state ≡ unit.old.state) × (S.ReadStorage.words storage.new ≡ S.ReadStorage.words storage.old)) }
    ensures plan { unit.new.plan ≡ unit.old.plan }
    ensures lenders { S.Storage.lenders storage.new ≡ S.Storage.lenders storage.old }
{
    let mut replies = Vec::with_capacity(heap, calls.len())?;
    play(unit, storage, calls, &mut replies);
    Ok(replies)
}
