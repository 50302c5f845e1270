ghost use Rattle.std.specs.Prelude.{◌≡◌, ◌<◌, IfOk};
ghost use Rattle.paging.specs.Numbers.{numbers_of};
ghost use Rattle.unit_state.specs.Answers.{passed, unless};
ghost use Rattle.unit_state.specs.Marks.{cleared_page, mark_of, mark_refusal};

use crate::unit::MemoryUnit;
use paging::form::PageForm;
use refusals::refusal::Refusal;
use unit_state::state::PageMark;

impl<F: PageForm> MemoryUnit<F> {
    // The place of a page's mark. A page that the plan has not has none.
    fn mark_place(&self, page: u32) -> Result<usize, Refusal>
        ensures is { result ≡ passed (mark_refusal (numbers_of self.now.plan) page) page }
        ensures low { IfOk result (λ place. place < 8192) }
    {
        if page >= self.plan.page_count() {
            return Err(Refusal::PageMarkOutside);
        }
        Ok(page as usize)
    }

    // The marks of a real page.
    pub fn page_mark(&self, page: u32) -> Result<PageMark, Refusal>
        ensures { result ≡ passed (mark_refusal (numbers_of self.now.plan) page) (mark_of self.now.state page) }
    {
        let place = self.mark_place(page)?;
        Ok(self.state.marks[place])
    }

    // Clears both marks of a real page.
    pub fn clear_page_mark(&mut self, page: u32) -> Result<(), Refusal>
        ensures answer { result ≡ passed (mark_refusal (numbers_of self.old.plan) page) tt }
        ensures state { self.new.state ≡ unless (mark_refusal (numbers_of self.old.plan) page) self.old.state (cleared_page self.old.state page) }
        ensures plan { self.new.plan ≡ self.old.plan }
    {
        let place = self.mark_place(page)?;
        self.state.marks[place] = PageMark::default();
        Ok(())
    }
}
