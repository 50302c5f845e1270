ghost use Rattle.std.specs.Prelude.{◌≡◌, ◌<◌, IfOk, OnOk};
ghost use Rattle.paging.specs.Numbers.{numbers_of};
ghost use Rattle.paging.specs.Address.{page_of};
ghost use Rattle.unit_state.specs.Answers.{passed};
ghost use Rattle.lanes.specs.Bytes.{LoadedBytes, StoredBytes};
ghost use Rattle.mmu.specs.Real.{load_refusal, real_load, after_real_load, real_store, after_real_store, real_stored};

use crate::unit::MemoryUnit;
use lanes::access::{load_unit, store_unit};
use lanes::width::Width;
use paging::address::RealAddress;
use paging::form::PageForm;
use protection::access_type::AccessType;
use refusals::refusal::Refusal;
use storage::words::{ReadStorage, Storage};
use unit_state::answer::{Access, Fault};
use unit_state::answers::Answer;
use unit_state::translate::has_size;

impl<F: PageForm> MemoryUnit<F> {
    // The real page of an address. The storage has to be as long as the plan says, and the address in it.
    fn real_page<S: ReadStorage>(&self, storage: &S, address: RealAddress) -> Result<u32, Refusal>
        ensures is { result ≡ passed (load_refusal (numbers_of self.now.plan) (S.ReadStorage.words storage.now) address.number) (page_of F.PageForm.sizes address.number) }
        ensures low { IfOk result (λ page. page < 8192) }
    {
        if !has_size(&self.plan, storage) {
            return Err(Refusal::SizeDiffers);
        }
        if address.number >= self.plan.storage_bytes() {
            return Err(Refusal::RealAddressOutside);
        }
        Ok(address.page::<F>())
    }

    // Loads by real address.
    pub fn load_real<S: ReadStorage>(
        &mut self,
        storage: &S,
        address: RealAddress,
        width: Width,
    ) -> Answer
        ensures answer { result ≡ real_load (numbers_of self.old.plan) (S.ReadStorage.words storage.now) width address.number }
        ensures state { self.new.state ≡ after_real_load (numbers_of self.old.plan) (S.ReadStorage.words storage.now) address.number self.old.state }
        ensures plan { self.new.plan ≡ self.old.plan }
        ensures bytes { IfOk result (λ a. LoadedBytes (S.ReadStorage.words storage.now) width address.number a.value) }
    {
        let page = self.real_page(storage, address)?;
        let value = load_unit(storage, address.number, width)?;
        self.state.use_page(page, AccessType::Load);
        Ok(Access::uncompared(value))
    }

    // Stores by real address.
    pub fn store_real<S: Storage>(
        &mut self,
        storage: &mut S,
        address: RealAddress,
        width: Width,
        value: u32,
    ) -> Answer
        ensures answer { result ≡ real_store (numbers_of self.old.plan) (S.ReadStorage.words storage.old) width address.number value }
        ensures state { self.new.state ≡ after_real_store (numbers_of self.old.plan) (S.ReadStorage.words storage.old) width address.number value self.old.state }
        ensures plan { self.new.plan ≡ self.old.plan }
        ensures words { S.ReadStorage.words storage.new ≡ real_stored (numbers_of self.old.plan) (S.ReadStorage.words storage.old) width address.number value }
        ensures bytes { OnOk result (StoredBytes (S.ReadStorage.words storage.old) (S.ReadStorage.words storage.new) width address.number value) }
        ensures lenders { S.Storage.lenders storage.new ≡ S.Storage.lenders storage.old }
    {
        if !width.holds(value) {
            return Err(Fault::from(Refusal::ValueTooWide));
        }
        let page = self.real_page(storage, address)?;
        store_unit(storage, address.number, width, value)?;
        self.state.use_page(page, AccessType::Store);
        Ok(Access::uncompared(0))
    }
}
