ghost use Rattle.std.specs.Prelude.{◌≡◌, ◌*◌, ◌^◌, ◌<◌, Some, Decides};
ghost use Rattle.paging.specs.Numbers.{numbers_of};
ghost use Rattle.unit_state.specs.Grants.{Granted, Closed};
ghost use Rattle.unit_state.specs.Deciding.{held_page, offset_in, opens, some_opens};

use crate::unit::MemoryUnit;
use page_table::decode::tag_of;
use page_table::entry::{PageEntry, Tag};
use page_table::finding::find_page;
use paging::address::VirtualAddress;
use paging::form::PageForm;
use protection::access_type::AccessType;
use protection::permission::permits;
use protection::register::SegmentRegister;
use storage::words::ReadStorage;
use unit_state::translate::has_size;

// The address of a place in a virtual page.
fn address_in<F: PageForm>(tag: Tag, place: u32) -> VirtualAddress
    requires narrow { tag.segment < 2 ^ 12 }
    requires short { tag.page < 2 ^ F.PageForm.sizes.width }
    requires inside { place < F.PageForm.sizes.page }
    ensures { result.offset ≡ offset_in F.PageForm.sizes tag place }
{
    VirtualAddress {
        segment: tag.segment,
        offset: tag.page * F::geometry().page + place,
    }
}

// Whether a register lets a request pass to a page, at an address.
fn opens<F: PageForm>(
    register: SegmentRegister,
    page: PageEntry,
    transaction: u8,
    address: VirtualAddress,
    access: AccessType,
) -> bool
    ensures { result ≡ opens F.PageForm.sizes page transaction address.offset access register }
{
    register.present
        && !register.barred
        && register.segment == page.tag.segment
        && permits::<F>(register, page, transaction, address, access)
}

impl<F: PageForm> MemoryUnit<F> {
    // What the entry of a real page says, where the search for its own tag finds it.
    fn held_page<S: ReadStorage>(&self, storage: &S, page: u32) -> Option<PageEntry>
        requires { page < 8192 }
        ensures { result ≡ held_page (numbers_of self.now.plan) (S.ReadStorage.words storage.now) self.now.state page }
    {
        let place = self.plan.table().start.number / 4 + 4 * page;
        let word0 = storage.read(place).ok()?;
        let tag = tag_of::<F>(word0);
        let found = find_page(storage, &self.plan, tag, self.state.long_stop).ok()?;
        if u32::from(found.entry) == page {
            Some(found.page)
        } else {
            None
        }
    }

    // Whether some register lets a request pass to a page, at a word of the storage.
    fn some_opens(&self, page: PageEntry, access: AccessType, word: u32) -> bool
        requires narrow { page.tag.segment < 2 ^ 12 }
        requires short { page.tag.page < 2 ^ F.PageForm.sizes.width }
        requires low { 4 * word < 2 ^ 24 }
        ensures { result ≡ some_opens F.PageForm.sizes self.now.state access word (Some page) }
    {
        let transaction = self.state.transaction;
        let address = address_in::<F>(page.tag, 4 * word % F::geometry().page);
        self.state.segments.iter().any(|register| opens::<F>(
            *register,
            page,
            transaction,
            address,
            access,
        ))
    }

    // Whether requests of an access type may reach a word of the storage.
    pub fn grants<S: ReadStorage>(&self, storage: &S, access: AccessType, word: u32) -> bool
        ensures { Decides result (Granted (numbers_of self.now.plan) (S.ReadStorage.words storage.now) self.now.state access word) }
    {
        if !has_size(&self.plan, storage) || word >= storage.count() {
            return false;
        }
        match self.held_page(storage, 4 * word / F::geometry().page) {
            Some(page) => self.some_opens(page, access, word),
            None => false,
        }
    }

    // Whether no word of the page table is granted for storing, so that requests that the table judges leave it as it is.
    pub fn table_is_closed<S: ReadStorage>(&self, storage: &S) -> bool
        ensures { Decides result (Closed (numbers_of self.now.plan) (S.ReadStorage.words storage.now) self.now.state) }
    {
        let table = self.plan.table();
        let start = table.start.number / 4;
        for word in start..start + 4 * table.entries {
            if self.grants(storage, AccessType::Store, word) {
                return false;
            }
        }
        true
    }
}
