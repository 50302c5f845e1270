ghost use Rattle.std.specs.Prelude.{◌≡◌, IfOk, OnOk, Ok, Err};
ghost use Rattle.paging.specs.Numbers.{numbers_of};
ghost use Rattle.tlb.specs.Lookup.{EachNear};
ghost use Rattle.unit_state.specs.Registers.{NarrowIds};
ghost use Rattle.unit_state.specs.Requests.{accepts, refuses, load_at, store_at, words_at, noted_in, load_place, store_place, used_by_load, used_by_store, LoadedAt, StoredAt};

use crate::answer::{Access, Fault};
use crate::answers::Answer;
use crate::state::UnitState;
use crate::translation::Place;
use lanes::access::{load_unit, store_unit};
use lanes::width::Width;
use paging::address::EffectiveAddress;
use paging::form::PageForm;
use paging::plan::SettledPlan;
use protection::access_type::AccessType;
use refusals::refusal::Refusal;
use storage::words::{ReadStorage, Storage};

impl Place {
    // What a request answers that is accepted there.
    pub(crate) fn accept(self, value: u32) -> Access
        ensures { Ok result ≡ accepts self value }
    {
        Access {
            value,
            compared: self.compared,
        }
    }

    // What a request answers that is refused there.
    pub(crate) fn refuse(self, refusal: Refusal) -> Fault
        ensures { Err result ≡ refuses self refusal }
    {
        Fault {
            refusal,
            compared: self.compared,
        }
    }
}

impl UnitState {
    // Loads where the translation leads to, and marks the page.
    #[tactic(auto, using(crate::proofs::Inverting::place_near))]
    pub fn load_at<F: PageForm, S: ReadStorage>(
        &mut self,
        storage: &S,
        plan: &SettledPlan<F>,
        address: EffectiveAddress,
        width: Width,
    ) -> Answer
        requires narrow { NarrowIds self.old.segments }
        requires near { EachNear self.old.buffers }
        ensures answer { result ≡ load_at (S.ReadStorage.words storage.now) width (load_place (numbers_of plan.now) (S.ReadStorage.words storage.now) self.old address) }
        ensures state { self.new ≡ used_by_load (numbers_of plan.now) (S.ReadStorage.words storage.now) self.old width address }
        ensures bytes { IfOk result (λ a. LoadedAt (numbers_of plan.now) (S.ReadStorage.words storage.now) self.old width address a) }
    {
        let place = self.translate(storage, plan, address, AccessType::Load)?;
        let value = load_unit(storage, place.address.number, width).map_err(|refusal| place.refuse(
            refusal,
        ))?;
        self.use_page(u32::from(place.page), AccessType::Load);
        Ok(place.accept(value))
    }

    // Stores a value that fits its width where the translation leads to, and marks the page.
    #[tactic(auto, using(crate::proofs::Inverting::place_near))]
    pub fn store_at<F: PageForm, S: Storage>(
        &mut self,
        storage: &mut S,
        plan: &SettledPlan<F>,
        address: EffectiveAddress,
        width: Width,
        value: u32,
    ) -> Answer
        requires narrow { NarrowIds self.old.segments }
        requires near { EachNear self.old.buffers }
        ensures answer { result ≡ store_at (S.ReadStorage.words storage.old) width value (store_place (numbers_of plan.now) (S.ReadStorage.words storage.old) self.old address) }
        ensures state { self.new ≡ used_by_store (numbers_of plan.now) (S.ReadStorage.words storage.old) self.old width address value }
        ensures words { S.ReadStorage.words storage.new ≡ words_at (S.ReadStorage.words storage.old) width value (store_place (numbers_of plan.now) (S.ReadStorage.words storage.old) self.old address) }
        ensures bytes { OnOk result (StoredAt (numbers_of plan.now) (S.ReadStorage.words storage.old) (S.ReadStorage.words storage.new) self.old width address value) }
        ensures lenders { S.Storage.lenders storage.new ≡ S.Storage.lenders storage.old }
    {
        let place = self.translate(storage, plan, address, AccessType::Store)?;
        store_unit(storage, place.address.number, width, value).map_err(|refusal| place.refuse(
            refusal,
        ))?;
        self.use_page(u32::from(place.page), AccessType::Store);
        Ok(place.accept(0))
    }

    // Raises the exception of a refused request.
    pub fn note(&mut self, answer: Answer, address: EffectiveAddress, access: AccessType)
        ensures { self.new ≡ noted_in self.old answer address access }
    {
        if let Err(fault) = answer {
            self.exceptions.note(fault.refusal, address, access);
        }
    }
}
