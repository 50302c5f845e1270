ghost use Rattle.std.specs.Prelude.{◌≡◌, IfOk, OnOk};
ghost use Rattle.paging.specs.Numbers.{numbers_of};
ghost use Rattle.protection.specs.declared.access_type.AccessType.TheVariants.{Load, Store};
ghost use Rattle.unit_state.specs.Requests.{load_at, store_at, words_at, noted_in, load_place, store_place, used_by_load, used_by_store, load_answer, after_load, store_answer, after_store, store_words, LoadedAt, StoredAt};
ghost use Rattle.unit_state.specs.Laws.{Agrees, LoadLaws, StoreLaws};

use crate::unit::MemoryUnit;
use lanes::width::Width;
use paging::address::EffectiveAddress;
use paging::form::PageForm;
use protection::access_type::AccessType;
use refusals::refusal::Refusal;
use storage::words::{ReadStorage, Storage};
use unit_state::answer::Fault;
use unit_state::answers::Answer;

impl<F: PageForm> MemoryUnit<F> {
    // Loads by effective address.
    #[tactic(auto, unfolding(unit_state::specs::Requests::load_answer, unit_state::specs::Requests::after_load))]
    pub fn load<S: ReadStorage>(
        &mut self,
        storage: &S,
        address: EffectiveAddress,
        width: Width,
    ) -> Answer
        ensures answer { result ≡ load_answer (numbers_of self.old.plan) (S.ReadStorage.words storage.now) self.old.state width address }
        ensures state { self.new.state ≡ after_load (numbers_of self.old.plan) (S.ReadStorage.words storage.now) self.old.state width address }
        ensures plan { self.new.plan ≡ self.old.plan }
        ensures bytes { IfOk result (λ a. LoadedAt (numbers_of self.old.plan) (S.ReadStorage.words storage.now) self.old.state width address a) }
        ensures laws { Agrees (numbers_of self.old.plan) (S.ReadStorage.words storage.now) self.old.state → LoadLaws (numbers_of self.old.plan) (S.ReadStorage.words storage.now) self.old.state width address result self.new.state }
    {
        let answer = self.state.load_at(storage, &self.plan, address, width);
        self.state.note(answer, address, AccessType::Load);
        answer
    }

    // Stores by effective address. Always inlined: a caller that stores in one width then runs the part of that width alone.
    #[inline(always)]
    #[tactic(auto, unfolding(unit_state::specs::Requests::store_answer, unit_state::specs::Requests::after_store, unit_state::specs::Requests::store_words))]
    pub fn store<S: Storage>(
        &mut self,
        storage: &mut S,
        address: EffectiveAddress,
        width: Width,
        value: u32,
    ) -> Answer
        ensures answer { result ≡ store_answer (numbers_of self.old.plan) (S.ReadStorage.words storage.old) self.old.state width address value }
        ensures state { self.new.state ≡ after_store (numbers_of self.old.plan) (S.ReadStorage.words storage.old) self.old.state width address value }
        ensures plan { self.new.plan ≡ self.old.plan }
        ensures words { S.ReadStorage.words storage.new ≡ store_words (numbers_of self.old.plan) (S.ReadStorage.words storage.old) self.old.state width address value }
        ensures bytes { OnOk result (StoredAt (numbers_of self.old.plan) (S.ReadStorage.words storage.old) (S.ReadStorage.words storage.new) self.old.state width address value) }
        ensures laws { Agrees (numbers_of self.old.plan) (S.ReadStorage.words storage.old) self.old.state → StoreLaws (numbers_of self.old.plan) (S.ReadStorage.words storage.old) (S.ReadStorage.words storage.new) self.old.state width address value result self.new.state }
        ensures lenders { S.Storage.lenders storage.new ≡ S.Storage.lenders storage.old }
    {
        if !width.holds(value) {
            return Err(Fault::from(Refusal::ValueTooWide));
        }
        let answer = self
            .state
            .store_at(storage, &self.plan, address, width, value);
        self.state.note(answer, address, AccessType::Store);
        answer
    }
}
