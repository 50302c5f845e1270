#![tactic(auto)]

ghost use Rattle.std.specs.Prelude.{◌≡◌, true, IfOk};

use boards::ram::RamBoard;
use paging::form::{Form2K, Form4K, PageForm};
use survey::findings::Findings;
use survey::on_boards::{IMAGE_BYTES, on_dump_board, on_interleaved_banks, on_stacked_banks};
use survey::site_check::{SiteCheck, check_image};
use survey_image::drawing::draw_all;
use survey_image::marker::Marker;
use survey_image::sites::SITES;
use survey_report::comparison::{Seen, compare, show_agreement};
use survey_report::lines::show_markers;
use survey_report::page_map::show_pages;
use survey_report::plans::{plan_of, show_plan, show_refused_plan};

fn seen_of(found: &Findings<Marker>) -> Seen<'_>
    ensures { result.markers.now ≡ found.now.found.items }
{
    Seen {
        markers: &found.found,
        pages: &found.pages,
    }
}

// Says whether a board has the markers and the pages that the RAM board has.
fn compare_board(
    rt: &HostRuntime,
    board: &str,
    ram: &Findings<Marker>,
    found: &Findings<Marker>,
) -> anyhow::Result<bool>
    ensures { IfOk result (λ same. (same ≡ true → ram.now.found.items ≡ found.now.found.items)) }
{
    let same = compare(rt, board, &seen_of(ram), &seen_of(found))?;
    if same {
        println!(rt; "{board}: the same markers from the same pages.")?;
    }
    Ok(same)
}

// Checks the image on all four boards under one page form. mapped_markers does so too, but prints other lines: a function for
// both would take a closure for each line.
fn check_boards<F: PageForm + Copy>(
    rt: &HostRuntime,
    form: F,
    image: &mut [u8],
) -> anyhow::Result<()> {
    let heap = rt.alloc();
    let check = SiteCheck { sites: &SITES };
    show_plan(rt, form)?;
    let (ram, draft) = check_image(heap, plan_of(form), image, &SITES)?;
    println!(rt; "Markers on the RAM board:")?;
    show_markers::<F>(rt, &ram.found)?;
    show_pages(rt, &ram.pages)?;
    let (interleaved, draft) = on_interleaved_banks(heap, draft, image, &check)?;
    let first = compare_board(rt, "Two interleaved banks", &ram, &interleaved)?;
    let (stacked, draft) = on_stacked_banks(heap, draft, image, &check)?;
    let second = compare_board(rt, "Two stacked banks", &ram, &stacked)?;
    let (dump, _draft) = on_dump_board(heap, draft, image, &check)?;
    let third = compare_board(rt, "A dump with shuffled blocks", &ram, &dump)?;
    show_agreement(rt, first && second && third)?;
    Ok(())
}

fn run(rt: &HostRuntime) -> anyhow::Result<()> {
    let mut image = vec![in rt.alloc(); 0u8; IMAGE_BYTES]?;
    let mut board = RamBoard::new(&mut image);
    match draw_all(&mut board, &SITES) {
        Ok(()) => println!(rt; "An image of {IMAGE_BYTES} bytes with twelve survey markers.")?,
        Err(refusal) => println!(rt; "The image has no room for the markers: {refusal}.")?,
    }
    show_refused_plan(rt)?;
    check_boards(rt, Form2K, &mut image)?;
    check_boards(rt, Form4K, &mut image)
}

fn main(rt: HostRuntime) -> anyhow::Result<()> {
    run(&rt)
}
