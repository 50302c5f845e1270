ghost use Rattle.std.specs.Prelude.{IfOk, IfErr};
ghost use Rattle.boards.specs.Ram.{ram_words};
ghost use Rattle.unit_state.specs.State.{powered_on};
ghost use Rattle.survey.specs.Markers.{sites_used, AllRead};
ghost use Rattle.survey.specs.Check.{SitesChecked, StopsCheck};

use crate::board_check::BoardCheck;
use crate::findings::Findings;
use crate::page_marks::page_marks;
use crate::real_loads::read_markers;
use crate::trouble::Trouble;
use boards::ram::RamBoard;
use mmu::unit::MemoryUnit;
use paging::draft::Draft;
use paging::form::PageForm;
use std::alloc::Global;
use storage::words::{ReadStorage, Storage};
use survey_image::marker::{Marker, Site};

// Reads the marker at each site of a storage by real loads.
pub fn check_sites<F: PageForm + Drop, S: ReadStorage>(
    heap: Global,
    draft: Draft<F>,
    storage: &S,
    sites: &[Site],
) -> Result<(Findings<Marker>, Draft<F>), Trouble>
    ensures checked { IfOk result (SitesChecked F.PageForm.sizes draft (S.ReadStorage.words storage.now) sites.now) }
    ensures trouble { IfErr result StopsCheck }
{
    let plan = draft.settle()?;
    let mut unit = MemoryUnit::power_on(plan);
    let found = read_markers(heap, &mut unit, storage, sites)?;
    let pages = page_marks(heap, &unit)?;
    Ok((Findings { found, pages }, unit.end()))
}

// Checks an image where it is, on a RAM board: real loads need no copy.
pub fn check_image<F: PageForm + Drop>(
    heap: Global,
    draft: Draft<F>,
    image: &mut [u8],
    sites: &[Site],
) -> Result<(Findings<Marker>, Draft<F>), Trouble>
    ensures checked { IfOk result (SitesChecked F.PageForm.sizes draft (ram_words image.old) sites.now) }
    ensures trouble { IfErr result StopsCheck }
{
    check_sites(heap, draft, &RamBoard::new(image), sites)
}

// The markers at sites, read by real loads. The signature is the trait's, as each impl writes it.
#[derive(Clone, Copy)]
pub struct SiteCheck<'a> {
    pub sites: &'a [Site],
}

impl<'a> BoardCheck for SiteCheck<'a> {
    type Item = Marker;

    ghost Found = { λ plan ws check. AllRead plan ws check.sites.now };

    ghost left = { λ plan ws check. sites_used plan ws powered_on check.sites.now };

    ghost Stops = { StopsCheck };

    fn check_storage<F: PageForm + Drop, S: Storage>(
        &self,
        heap: Global,
        draft: Draft<F>,
        storage: &mut S,
    ) -> Result<(Findings<Marker>, Draft<F>), Trouble> {
        check_sites(heap, draft, storage, self.sites)
    }
}
