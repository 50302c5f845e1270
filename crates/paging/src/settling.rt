ghost use Rattle.std.specs.Prelude.{◌≡◌, ◌+◌, ◌*◌, ◌^◌, ◌<◌, ◌≤◌, Some, None, MatchResult};
ghost use Rattle.paging.specs.Plan.{storage_bytes, page_count, table_start, table_bytes, draft_refusal};

use crate::address::RealAddress;
use crate::base::BaseNumber;
use crate::draft::{Draft, RefusedDraft};
use crate::form::PageForm;
use crate::plan::SettledPlan;
use refusals::refusal::Refusal;

// Where the page table lies.
#[derive(Clone, Copy)]
pub struct TableSpan {
    pub start: RealAddress,
    pub entries: u32,
}

impl<F: PageForm> Draft<F> {
    // Settles the plan, or hands the draft back as it was.
    pub fn settle(self) -> Result<SettledPlan<F>, RefusedDraft<F>>
        ensures { MatchResult result (λ s. (draft_refusal F.PageForm.sizes self.exponent self.base ≡ None) × (s.form ≡ self.form) × (s.exponent ≡ self.exponent) × (s.base.number ≡ self.base)) (λ e. (draft_refusal F.PageForm.sizes self.exponent self.base ≡ Some e.refusal) × (e.draft ≡ self)) }
    {
        if self.exponent < 16 || self.exponent > 24 {
            return Err(RefusedDraft {
                draft: self,
                refusal: Refusal::ExponentOutside,
            });
        }
        match BaseNumber::new(self.base) {
            Some(base) => {
                let Draft {
                    form,
                    exponent,
                    base: _,
                } = self;
                Ok(SettledPlan {
                    form,
                    exponent,
                    base,
                })
            }
            None => Err(RefusedDraft {
                draft: self,
                refusal: Refusal::BaseTooHigh,
            }),
        }
    }
}

impl<F: PageForm> SettledPlan<F> {
    // The plan as a draft again, to be altered and settled anew.
    pub fn redraft(self) -> Draft<F>
        ensures { (result.form ≡ self.form) × (result.exponent ≡ self.exponent) × (result.base ≡ self.base.number) }
    {
        let SettledPlan {
            form,
            exponent,
            base,
        } = self;
        Draft {
            form,
            exponent,
            base: base.number(),
        }
    }

    // The length of the storage in bytes.
    pub fn storage_bytes(&self) -> u32
        ensures { result ≡ storage_bytes self.now.exponent }
    {
        1 << self.exponent
    }

    // The number of real pages.
    #[tactic(auto, using(crate::proofs::Pages::pages_whole, crate::proofs::Pages::pages_bounded))]
    pub fn page_count(&self) -> u32
        ensures is { result ≡ page_count F.PageForm.sizes self.now.exponent }
        ensures whole { F.PageForm.sizes.page * result ≡ storage_bytes self.now.exponent }
        ensures some { 16 ≤ result }
        ensures few { result ≤ 8192 }
    {
        self.storage_bytes() / F::geometry().page
    }

    // Where the page table lies: whole inside the storage.
    #[tactic(auto, using(crate::proofs::Pages::table_inside, crate::proofs::Pages::storage_small))]
    pub fn table(&self) -> TableSpan
        ensures start { result.start.number ≡ table_start F.PageForm.sizes self.now.exponent self.now.base.number }
        ensures entries { result.entries ≡ page_count F.PageForm.sizes self.now.exponent }
        ensures some { 16 ≤ result.entries }
        ensures few { result.entries ≤ 8192 }
        ensures low { result.start.number < 2 ^ 24 }
        ensures inside { result.start.number + table_bytes F.PageForm.sizes self.now.exponent ≤ storage_bytes self.now.exponent }
    {
        let entries = self.page_count();
        let number = self.base.number() * 16 * entries;
        TableSpan {
            start: RealAddress { number },
            entries,
        }
    }
}
