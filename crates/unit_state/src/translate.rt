ghost use Rattle.std.specs.Prelude.{◌≡◌, ◌*◌, length, ◌==◌};
ghost use Rattle.paging.specs.Numbers.{numbers_of};
ghost use Rattle.paging.specs.Plan.{storage_bytes};
ghost use Rattle.unit_state.specs.Registers.{NarrowIds};
ghost use Rattle.unit_state.specs.State.{with_buffers};
ghost use Rattle.unit_state.specs.Translation.{located, buffers_after, protection_refusal, page_tag, place_at, translated, translated_state};

use crate::answer::Fault;
use crate::state::UnitState;
use crate::translation::{Located, Place};
use page_table::entry::Tag;
use page_table::finding::find_page;
use page_table::walk::Compared;
use paging::address::{EffectiveAddress, RealAddress, VirtualAddress};
use paging::form::PageForm;
use paging::plan::SettledPlan;
use protection::access_type::AccessType;
use protection::permission::permits;
use protection::register::SegmentRegister;
use refusals::refusal::Refusal;
use storage::words::ReadStorage;
use tlb::buffers::Translation;

// Whether a storage is as long as the plan says.
pub fn has_size<F: PageForm, S: ReadStorage>(plan: &SettledPlan<F>, storage: &S) -> bool
    ensures { result ≡ (4 * length (S.ReadStorage.words storage.now) == storage_bytes plan.now.exponent) }
{
    4 * storage.count() == plan.storage_bytes()
}

fn refusal_in(register: SegmentRegister) -> Refusal
    ensures { result ≡ protection_refusal register }
{
    if register.special {
        Refusal::LockRefused
    } else {
        Refusal::ProtectionRefused
    }
}

// The virtual page that an address lies in.
pub fn virtual_page<F: PageForm>(address: VirtualAddress) -> Tag
    ensures { result ≡ page_tag F.PageForm.sizes address }
{
    Tag {
        segment: address.segment,
        page: address.page_number::<F>(),
    }
}

// The same place of the real page.
fn place_in<F: PageForm>(located: Located, address: VirtualAddress) -> Place
    ensures { result ≡ place_at F.PageForm.sizes address.offset located }
{
    let page = located.translation.entry;
    let number = u32::from(page) * F::geometry().page + address.place_in_page::<F>();
    Place {
        address: RealAddress { number },
        page,
        compared: located.compared,
    }
}

impl UnitState {
    // Finds a virtual page by the look-aside buffers, or else by a walk, which they then keep.
    #[tactic(auto, unfolding(crate::specs::Translation::located, crate::specs::Translation::buffers_after))]
    fn locate<F: PageForm, S: ReadStorage>(
        &mut self,
        storage: &S,
        plan: &SettledPlan<F>,
        tag: Tag,
    ) -> Result<Located, Fault>
        ensures answer { result ≡ located (numbers_of plan.now) (S.ReadStorage.words storage.now) self.old tag }
        ensures state { self.new ≡ with_buffers self.old (buffers_after (numbers_of plan.now) (S.ReadStorage.words storage.now) self.old tag) }
    {
        if let Some(translation) = self.buffers.look_up(tag) {
            return Ok(Located {
                translation,
                compared: Compared::default(),
            });
        }
        let found = find_page(storage, plan, tag, self.long_stop)?;
        let translation = Translation {
            entry: found.entry,
            page: found.page,
        };
        self.buffers.load(translation);
        Ok(Located {
            translation,
            compared: Compared {
                count: found.compared,
                last: Some(found.entry),
            },
        })
    }

    // The real address of a request. It is refused by the first rule that it breaks: the size of the storage, a segment that is
    // present and not barred, a page that the tables have, protection.
    // What is required of the segments is no ghost field of the state, since marking a page and raising an exception do without.
    #[tactic(auto, unfolding(crate::specs::Translation::translated, crate::specs::Translation::translated_state))]
    pub fn translate<F: PageForm, S: ReadStorage>(
        &mut self,
        storage: &S,
        plan: &SettledPlan<F>,
        address: EffectiveAddress,
        access: AccessType,
    ) -> Result<Place, Fault>
        requires { NarrowIds self.old.segments }
        ensures answer { result ≡ translated (numbers_of plan.now) (S.ReadStorage.words storage.now) self.old address.number access }
        ensures state { self.new ≡ translated_state (numbers_of plan.now) (S.ReadStorage.words storage.now) self.old address.number }
    {
        if !has_size(plan, storage) {
            return Err(Fault::from(Refusal::SizeDiffers));
        }
        let register = self.segments[address.register() as usize];
        if !register.present {
            return Err(Fault::from(Refusal::SegmentAbsent));
        }
        if register.barred {
            return Err(Fault::from(Refusal::SegmentBarred));
        }
        let virtual_address = VirtualAddress {
            segment: register.segment,
            offset: address.offset(),
        };
        let tag = virtual_page::<F>(virtual_address);
        let located = self.locate(storage, plan, tag)?;
        let place = place_in::<F>(located, virtual_address);
        let access_permitted = permits::<F>(
            register,
            located.translation.page,
            self.transaction,
            virtual_address,
            access,
        );
        if !access_permitted {
            return Err(place.refuse(refusal_in(register)));
        }
        Ok(place)
    }
}
