use crate::support::{are_the_drawn, drawn_image};
use boards::ram::RamBoard;
use paging::form::{Form2K, Form4K, PageForm};
use std::alloc::Global;
use std::process::Abort;
use std::test::Fail;
use survey::call_check::CallCheck;
use survey::calls::marker_calls;
use survey::on_boards::{on_dump_board, on_stacked_banks};
use survey::readings::markers_in;
use survey_image::sites::SITES;
use survey_image::table::draw_table;
use survey_report::plans::plan_of;

// Four loads to a marker, through the page table that is drawn beside the markers.
fn markers_by_calls<F: PageForm + Copy + Drop>(
    rt: &impl Abort,
    heap: Global,
    form: F,
) -> Result<(), Fail> {
    let mut image = drawn_image(heap)?;
    let plan = plan_of(form).settle().map_err(|refused| refused.refusal)?;
    draw_table(&mut RamBoard::new(&mut image), &plan)?;
    let calls = marker_calls::<F>(heap, &SITES)?;
    assert_eq!(rt; calls.len(), 48);
    let check = CallCheck { calls: &calls };
    let (found, draft) = on_stacked_banks(heap, plan_of(form), &mut image, &check)?;
    are_the_drawn(rt, &markers_in(heap, &found.found, 12)?);
    let (found, _draft) = on_dump_board(heap, draft, &mut image, &check)?;
    are_the_drawn(rt, &markers_in(heap, &found.found, 12)?);
    Ok(())
}

#[test]
fn markers_read_through_registers(rt: HostRuntime) -> Result<(), Fail> {
    markers_by_calls(&rt, rt.alloc(), Form2K)?;
    markers_by_calls(&rt, rt.alloc(), Form4K)
}
