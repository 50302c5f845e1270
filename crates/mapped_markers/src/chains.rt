ghost use Rattle.std.specs.Prelude.{◌≡◌, ◌/◌};
ghost use Rattle.survey_image.specs.Layout.{virtual_page};

use boards::ram::RamBoard;
use boards::stacked::Stacked;
use page_table::entry::Tag;
use page_table::finding::find_page;
use page_table::pairs::{find_both_pages, find_in_both};
use page_table::trace::trace_page;
use page_table::walk::{Fault, Found};
use paging::form::PageForm;
use paging::plan::SettledPlan;
use refusals::refusal::Refusal;
use std::alloc::Global;
use storage::copy::copy_words;
use storage::words::{ReadStorage, Storage};
use survey::trouble::Trouble;
use survey_image::layout::virtual_page;
use survey_image::marker::Site;
use survey_report::lines::MarkerName;

// The real page of a marker's first byte.
fn page_of<F: PageForm>(site: &Site) -> u8
    ensures { result ≡ site.now.address / F.PageForm.sizes.page }
{
    (u32::from(site.address) / F::geometry().page) as u8
}

// The virtual page of a real page.
fn tag_of_page<F: PageForm>(page: u8) -> Tag
    ensures { result ≡ record { segment = 5; page = virtual_page F.PageForm.sizes page } }
{
    Tag {
        segment: 5,
        page: virtual_page::<F>(page),
    }
}

// An image, and the plan by which its page table is found.
#[derive(Drop)]
pub struct TableImage<'a, F: PageForm> {
    pub plan: &'a SettledPlan<F>,
    pub image: &'a mut [u8],
}

// Prints the entries of the page table that are compared on the way to a marker.
pub fn show_chain<F: PageForm>(
    rt: &HostRuntime,
    table: &mut TableImage<F>,
    site: &Site,
) -> anyhow::Result<()> {
    let tag = tag_of_page::<F>(page_of::<F>(site));
    let trace = trace_page(
        rt.alloc(),
        &RamBoard::new(table.image),
        table.plan,
        tag,
        true,
    )?;
    let name = MarkerName(site.marker);
    let page = tag.page;
    print!(rt; "  {name}  virtual page {page:2}, entries compared:")?;
    for entry in &trace.entries {
        print!(rt; " {entry}")?;
    }
    match trace.outcome {
        Ok(found) => {
            let real = found.entry;
            let count = found.compared;
            println!(rt; " ({count}), real page {real}")?;
        }
        Err(fault) => {
            let refusal = fault.refusal;
            println!(rt; ": {refusal}")?;
        }
    }
    Ok(())
}

// Prints the entry that a walk found, or why it found none.
fn show_outcome(rt: &HostRuntime, what: &str, outcome: Result<Found, Fault>) -> anyhow::Result<()> {
    match outcome {
        Ok(found) => {
            let entry = found.entry;
            println!(rt; "  {what}: entry {entry}")?;
        }
        Err(fault) => {
            let refusal = fault.refusal;
            println!(rt; "  {what}: {refusal}")?;
        }
    }
    Ok(())
}

// Finds the pages of two markers in one table, where they never share an entry.
pub fn show_two_pages<F: PageForm>(
    rt: &HostRuntime,
    table: &mut TableImage<F>,
    one: &Site,
    other: &Site,
) -> anyhow::Result<()> {
    let first = tag_of_page::<F>(page_of::<F>(one));
    let second = tag_of_page::<F>(page_of::<F>(other));
    let (found, also) = find_both_pages(
        &RamBoard::new(table.image),
        table.plan,
        first,
        second,
        true,
    );
    println!(rt; "Two virtual pages never share an entry:")?;
    show_outcome(rt, "the page of the one marker", found)?;
    show_outcome(rt, "the page of the other", also)
}

// Finds the page of a marker in the table of the image and in that of a copy on two stacked banks. Alike tables answer alike.
pub fn show_two_storages<F: PageForm>(
    rt: &HostRuntime,
    table: &mut TableImage<F>,
    site: &Site,
) -> anyhow::Result<()> {
    let mut low = vec![in rt.alloc(); 0u8; 1100]?;
    let mut high = vec![in rt.alloc(); 0u8; 64436]?;
    let mut pair = Stacked::new(RamBoard::new(&mut low), RamBoard::new(&mut high));
    let board = RamBoard::new(table.image);
    copy_table(&board, &mut pair)?;
    let tag = tag_of_page::<F>(page_of::<F>(site));
    let (found, also) = find_in_both(&board, &pair, table.plan, tag, true);
    println!(rt; "Alike tables answer alike, whatever the boards:")?;
    show_outcome(rt, "on the RAM board", found)?;
    show_outcome(rt, "on two stacked banks", also)
}

fn copy_table<A: ReadStorage, B: Storage>(from: &A, to: &mut B) -> Result<(), Trouble> {
    copy_words(from, to)?;
    Ok(())
}

// How the page table is damaged.
#[derive(Clone, Copy)]
pub enum Damage {
    EmptyAnchor,
    EarlyEnd,
    PointerOutside,
    Loop,
}

// A search of a damaged table, under the Long-Search bit on or off, whatever the damage.
#[derive(Clone, Copy)]
pub struct DamagedSearch {
    pub how: Damage,
    pub long_stop: bool,
    pub what: &'static str,
}

// The bytes of a word that a damage replaces; the highest bit is for the first byte.
const FIRST_BYTE: u8 = 0b1000;

const THIRD_BYTE: u8 = 0b0010;

const LAST_BYTES: u8 = 0b0011;

// Damages the chain that begins with an entry, by bytes of its anchor's and of its own link word.
fn break_chain<F: PageForm, S: Storage>(
    storage: &mut S,
    plan: &SettledPlan<F>,
    first: u8,
    how: Damage,
) -> Result<(), Trouble> {
    let table = plan.table();
    let start = table.start.number / 4;
    let anchor = start + 4 * ((u32::from(first) ^ 5) % 64) + 1;
    let link = start + 4 * u32::from(first) + 1;
    // a match, so that no damage can be left out
    match how {
        Damage::EmptyAnchor => storage.write(anchor, 1 << 31, FIRST_BYTE)?,
        Damage::EarlyEnd => storage.write(link, 1 << 15, THIRD_BYTE)?,
        Damage::PointerOutside => storage.write(link, table.entries, LAST_BYTES)?,
        Damage::Loop => storage.write(link, u32::from(first), LAST_BYTES)?,
    }
    Ok(())
}

// Damages a copy of the image, and prints why the page of a marker is not found there.
pub fn show_damage<F: PageForm>(
    rt: &HostRuntime,
    table: &TableImage<F>,
    site: &Site,
    search: &DamagedSearch,
) -> anyhow::Result<()> {
    let mut copy = table.image.to_vec(rt.alloc())?;
    let mut board = RamBoard::new(&mut copy);
    let what = search.what;
    let page = page_of::<F>(site);
    break_chain(&mut board, table.plan, page % 8, search.how)?;
    match find_page(&board, table.plan, tag_of_page::<F>(page), search.long_stop) {
        Ok(found) => {
            let real = found.entry;
            println!(rt; "  {what}: found in real page {real}")?;
        }
        Err(fault) => {
            let refusal = fault.refusal;
            let count = fault.compared.count;
            match fault.compared.last {
                Some(entry) => println!(rt;
                    "  {what}: {refusal}; {count} compared, the last is entry {entry}"
                )?,
                None => println!(rt; "  {what}: {refusal}; none compared")?,
            }
        }
    }
    Ok(())
}
