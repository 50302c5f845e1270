ghost use Rattle.std.specs.Prelude.{IfOk, IfErr};
ghost use Rattle.paging.specs.Plan.{page_count};
ghost use Rattle.survey.specs.Check.{AllMarks, StopsCheck};

use crate::trouble::Trouble;
use mmu::unit::MemoryUnit;
use paging::form::PageForm;
use std::alloc::Global;
use unit_state::state::PageMark;

// The mark of each real page.
pub fn page_marks<F: PageForm>(heap: Global, unit: &MemoryUnit<F>) -> Result<Vec<PageMark>, Trouble>
    ensures marks { IfOk result (λ v. AllMarks (page_count F.PageForm.sizes unit.now.plan.exponent) unit.now.state v.items) }
    ensures trouble { IfErr result StopsCheck }
{
    let mut marks = Vec::new(heap);
    // over the numbers of the pages, which are what the unit is asked by
    for page in 0..unit.plan().page_count() {
        let mark = unit.page_mark(page)?;
        marks.push(mark)?;
    }
    Ok(marks)
}
