ghost use Rattle.std.specs.Prelude.{◌≡◌, Ok, IfOk, IfErr, OnOk};
ghost use Rattle.paging.specs.Numbers.{numbers_of};
ghost use Rattle.lanes.specs.declared.width.Width.TheVariants.{Word};
ghost use Rattle.mmu.specs.Real.{real_load, after_real_load};
ghost use Rattle.survey.specs.Check.{StopsCheck};
ghost use Rattle.survey.specs.Markers.{accepting, marker_read, marker_used, sites_used, AllRead};

use crate::readings::spelled;
use crate::trouble::Trouble;
use lanes::width::Width;
use mmu::unit::MemoryUnit;
use paging::address::RealAddress;
use paging::form::PageForm;
use std::alloc::Global;
use storage::words::ReadStorage;
use survey_image::marker::{Marker, Site};
use unit_state::answer::Fault;

// Loads the word at a real address.
fn word_at<F: PageForm, S: ReadStorage>(
    unit: &mut MemoryUnit<F>,
    storage: &S,
    number: u32,
) -> Result<u32, Fault>
    ensures answer { result ≡ accepting (real_load (numbers_of unit.old.plan) (S.ReadStorage.words storage.now) Word number) (λ value. Ok value) }
    ensures state { unit.new.state ≡ after_real_load (numbers_of unit.old.plan) (S.ReadStorage.words storage.now) number unit.old.state }
    ensures plan { unit.new.plan ≡ unit.old.plan }
{
    let access = unit.load_real(storage, RealAddress { number }, Width::Word)?;
    Ok(access.value)
}

// Reads the marker at a real address by four loads.
pub fn read_marker<F: PageForm, S: ReadStorage>(
    unit: &mut MemoryUnit<F>,
    storage: &S,
    address: u16,
) -> Result<Marker, Fault>
    ensures answer { result ≡ marker_read (numbers_of unit.old.plan) (S.ReadStorage.words storage.now) address }
    ensures state { unit.new.state ≡ marker_used (numbers_of unit.old.plan) (S.ReadStorage.words storage.now) address unit.old.state }
    ensures plan { unit.new.plan ≡ unit.old.plan }
{
    let start = u32::from(address);
    let first = word_at(unit, storage, start)?;
    let second = word_at(unit, storage, start + 4)?;
    let easting = word_at(unit, storage, start + 8)?;
    let northing = word_at(unit, storage, start + 12)?;
    Ok(spelled(first, second, easting, northing))
}

// Reads the marker at each site.
#[tactic(auto, using(crate::proofs::Steps::used_all))]
pub fn read_markers<F: PageForm, S: ReadStorage>(
    heap: Global,
    unit: &mut MemoryUnit<F>,
    storage: &S,
    sites: &[Site],
) -> Result<Vec<Marker>, Trouble>
    ensures found { IfOk result (λ v. AllRead (numbers_of unit.old.plan) (S.ReadStorage.words storage.now) sites.now v.items) }
    ensures state { OnOk result (unit.new.state ≡ sites_used (numbers_of unit.old.plan) (S.ReadStorage.words storage.now) unit.old.state sites.now) }
    ensures trouble { IfErr result StopsCheck }
    ensures plan { unit.new.plan ≡ unit.old.plan }
{
    let mut markers = Vec::new(heap);
    for site in sites {
        let marker = read_marker(unit, storage, site.address)?;
        markers.push(marker)?;
    }
    Ok(markers)
}
