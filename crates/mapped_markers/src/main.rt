#![tactic(auto)]

ghost use Rattle.std.specs.Prelude.{◌≡◌, true, IfOk};

mod both;
mod calls;
mod chains;

use boards::ram::RamBoard;
use both::show_both;
use calls::check_calls;
use chains::{
    Damage, DamagedSearch, TableImage, show_chain, show_damage, show_two_pages, show_two_storages,
};
use paging::draft::Draft;
use paging::form::{Form2K, Form4K, PageForm};
use paging::plan::SettledPlan;
use runs::call::Reply;
use std::alloc::Global;
use survey::call_check::CallCheck;
use survey::findings::Findings;
use survey::on_boards::{
    IMAGE_BYTES, on_dump_board, on_interleaved_banks, on_ram_board, on_stacked_banks,
};
use survey::readings::markers_in;
use survey::trouble::Trouble;
use survey_image::drawing::draw_all;
use survey_image::marker::Marker;
use survey_image::sites::SITES;
use survey_image::table::draw_table;
use survey_report::comparison::{Seen, compare, show_agreement};
use survey_report::lines::show_markers;
use survey_report::page_map::show_pages;
use survey_report::plans::{plan_of, show_plan, show_refused_plan};

// Prints the reply to the correction, to the load after it, and to the store that the key of the page does not permit.
fn show_reply(rt: &HostRuntime, what: &str, reply: Reply) -> anyhow::Result<()> {
    match reply {
        Reply::Request(Ok(access)) => {
            let value = access.value;
            let count = access.compared.count;
            println!(rt; "  {what}: accepted, value {value}, {count} compared")?;
        }
        Reply::Request(Err(fault)) => {
            let refusal = fault.refusal;
            let count = fault.compared.count;
            println!(rt; "  {what}: {refusal}; {count} compared")?;
        }
        Reply::Exceptions(exceptions) => {
            let word = exceptions.word();
            let address = exceptions.address.number;
            let locked = exceptions.locked;
            println!(rt; "  {what}: MER {word:08x}, MEAR {address:08x}, locked {locked}")?;
        }
        Reply::Mark(_) | Reply::Cleared(_) => println!(rt; "  {what}: done")?,
    }
    Ok(())
}

// What a check found, and the markers that its replies spell.
#[derive(Drop)]
struct Reading {
    findings: Findings<Reply>,
    markers: Vec<Marker>,
}

impl Reading {
    fn new(heap: Global, findings: Findings<Reply>) -> Result<Reading, Trouble> {
        let markers = markers_in(heap, &findings.found, SITES.len() as u8)?;
        Ok(Reading { findings, markers })
    }

    fn seen(&self) -> Seen<'_>
        ensures { result.markers.now ≡ self.now.markers.items }
    {
        Seen {
            markers: &self.markers,
            pages: &self.findings.pages,
        }
    }
}

fn show_reading<F: PageForm>(rt: &HostRuntime, ram: &Reading) -> anyhow::Result<()> {
    println!(rt; "Markers on the RAM board, through registers 1 and 2:")?;
    show_markers::<F>(rt, &ram.markers)?;
    let what = [
        "a store through register 1 corrects MILL",
        "its easting through register 2",
        "the same store through register 2",
        "the exception registers after it",
    ];
    for (text, reply) in what.iter().zip(ram.findings.found.iter().skip(48)) {
        show_reply(rt, text, *reply)?;
    }
    show_pages(rt, &ram.findings.pages)?;
    Ok(())
}

// Says whether a board has the markers, the pages and the replies that the RAM board has.
fn compare_replies(
    rt: &HostRuntime,
    board: &str,
    ram: &Reading,
    found: &Reading,
) -> anyhow::Result<bool>
    ensures { IfOk result (λ same. (same ≡ true → ram.now.markers.items ≡ found.now.markers.items)) }
{
    if !compare(rt, board, &ram.seen(), &found.seen())? {
        return Ok(false);
    }
    if ram.findings.found.as_slice() != found.findings.found.as_slice() {
        println!(rt;
            "{board}: the markers are those of the RAM board, the other replies are not."
        )?;
        return Ok(false);
    }
    println!(rt; "{board}: the same replies, from the same pages.")?;
    Ok(true)
}

// Compares what a board gave with what the RAM board gave, and hands the plan on.
fn compare_board<F: PageForm + Drop>(
    rt: &HostRuntime,
    board: &str,
    ram: &Reading,
    given: (Findings<Reply>, Draft<F>),
) -> anyhow::Result<(bool, Draft<F>)> {
    let (findings, draft) = given;
    let found = Reading::new(rt.alloc(), findings)?;
    let same = compare_replies(rt, board, ram, &found)?;
    Ok((same, draft))
}

// Checks the image on all four boards under one page form. markers does so too, but prints other lines: a function for both would
// take a closure for each line.
fn check_boards<F: PageForm + Copy>(
    rt: &HostRuntime,
    form: F,
    image: &mut [u8],
) -> anyhow::Result<()> {
    let heap = rt.alloc();
    let calls = check_calls::<F>(heap)?;
    let check = CallCheck { calls: &calls };
    let (findings, draft) = on_ram_board(heap, plan_of(form), image, &check)?;
    let ram = Reading::new(heap, findings)?;
    show_reading::<F>(rt, &ram)?;
    let given = on_interleaved_banks(heap, draft, image, &check)?;
    let (first, draft) = compare_board(rt, "Two interleaved banks", &ram, given)?;
    let given = on_stacked_banks(heap, draft, image, &check)?;
    let (second, draft) = compare_board(rt, "Two stacked banks", &ram, given)?;
    let given = on_dump_board(heap, draft, image, &check)?;
    let (third, _draft) = compare_board(rt, "A dump with shuffled blocks", &ram, given)?;
    show_agreement(rt, first && second && third)?;
    Ok(())
}

const DAMAGES: [DamagedSearch; 5] = [
    DamagedSearch {
        how: Damage::EmptyAnchor,
        long_stop: true,
        what: "an empty anchor",
    },
    DamagedSearch {
        how: Damage::EarlyEnd,
        long_stop: true,
        what: "a chain that ends",
    },
    DamagedSearch {
        how: Damage::PointerOutside,
        long_stop: true,
        what: "a pointer outside",
    },
    DamagedSearch {
        how: Damage::Loop,
        long_stop: true,
        what: "a loop, Long-Search bit on",
    },
    DamagedSearch {
        how: Damage::Loop,
        long_stop: false,
        what: "a loop, Long-Search bit off",
    },
];

// Prints chains of the page table, and what comes of a walk where one of them is damaged.
fn show_table<F: PageForm>(rt: &HostRuntime, table: &mut TableImage<F>) -> anyhow::Result<()> {
    println!(rt; "Chains of the page table:")?;
    show_chain(rt, table, &SITES[0])?;
    show_chain(rt, table, &SITES[8])?;
    show_chain(rt, table, &SITES[11])?;
    show_two_pages(rt, table, &SITES[8], &SITES[11])?;
    show_two_storages(rt, table, &SITES[8])?;
    println!(rt; "The page of STONE 18 in damaged copies of the table:")?;
    for search in DAMAGES {
        show_damage(rt, table, &SITES[8], &search)?;
    }
    Ok(())
}

// Draws the page table of one page form, and checks the image under it.
fn check_form<F: PageForm + Copy>(
    rt: &HostRuntime,
    form: F,
    image: &mut [u8],
) -> anyhow::Result<()> {
    show_plan(rt, form)?;
    let plan = settled(form)?;
    draw_table_into(image, &plan)?;
    let mut table = TableImage { plan: &plan, image };
    show_table(rt, &mut table)?;
    check_boards(rt, form, image)?;
    show_both(rt, form, &plan, image)
}

fn settled<F: PageForm + Drop>(form: F) -> Result<SettledPlan<F>, Trouble> {
    Ok(plan_of(form).settle()?)
}

fn draw_table_into<F: PageForm>(image: &mut [u8], plan: &SettledPlan<F>) -> Result<(), Trouble> {
    draw_table(&mut RamBoard::new(image), plan)?;
    Ok(())
}

// Draws the twelve markers.
fn draw_markers(image: &mut [u8]) -> Result<(), Trouble> {
    draw_all(&mut RamBoard::new(image), &SITES)?;
    Ok(())
}

fn run(rt: &HostRuntime) -> anyhow::Result<()> {
    let mut image = vec![in rt.alloc(); 0u8; IMAGE_BYTES]?;
    draw_markers(&mut image)?;
    println!(rt; "An image of {IMAGE_BYTES} bytes with twelve survey markers.")?;
    show_refused_plan(rt)?;
    check_form(rt, Form2K, &mut image)?;
    check_form(rt, Form4K, &mut image)
}

fn main(rt: HostRuntime) -> anyhow::Result<()> {
    run(&rt)
}
