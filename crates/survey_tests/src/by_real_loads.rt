use crate::support::{are_the_drawn, drawn_image};
use boards::ram::RamBoard;
use paging::form::{Form2K, Form4K};
use std::process::Abort;
use std::test::Fail;
use survey::on_boards::{on_interleaved_banks, on_ram_board};
use survey::site_check::{SiteCheck, check_image, check_sites};
use survey_image::sites::SITES;
use survey_report::plans::plan_of;
use unit_state::state::PageMark;

// The pages of 2,048 bytes that markers lie in: 800 hex is the first byte of page 1, 1804 and 1FF0 lie in page 3, 2000 begins
// page 4, 3A50 lies in page 7, 4444 in 8, 6008 in 12, 8C00 in 17, A7F8 to A807 in 20 and 21, D000 in 26, F120 in 30, FFF0 in 31.
const PAGES_2K: [usize; 12] = [1, 3, 4, 7, 8, 12, 17, 20, 21, 26, 30, 31];

// By 4,096: 800 lies in page 0, 1804 and 1FF0 in 1, 2000 in 2, 3A50 in 3, 4444 in 4, 6008 in 6, 8C00 in 8, A7F8 to A807 in 10,
// D000 in 13, F120 and FFF0 in 15.
const PAGES_4K: [usize; 10] = [0, 1, 2, 3, 4, 6, 8, 10, 13, 15];

// The listed pages were read, no other was, and none was written.
fn only_read(rt: &impl Abort, marks: &[PageMark], listed: &[usize]) {
    for (page, mark) in marks.iter().enumerate() {
        let expected = PageMark {
            referenced: listed.contains(&page),
            changed: false,
        };
        assert_eq!(rt; *mark, expected, "page {page}");
    }
}

#[test]
fn markers_read_where_the_image_is(rt: HostRuntime) -> Result<(), Fail> {
    let mut image = drawn_image(rt.alloc())?;
    let (found, draft) = check_image(rt.alloc(), plan_of(Form2K), &mut image, &SITES)?;
    are_the_drawn(&rt, &found.found);
    assert_eq!(rt; found.pages.len(), 32);
    only_read(&rt, &found.pages, &PAGES_2K);
    assert_eq!(rt; draft.exponent, 16);
    assert_eq!(rt; draft.base, 2);
    let (found, _draft) = check_image(rt.alloc(), plan_of(Form4K), &mut image, &SITES)?;
    are_the_drawn(&rt, &found.found);
    assert_eq!(rt; found.pages.len(), 16);
    only_read(&rt, &found.pages, &PAGES_4K);
    Ok(())
}

#[test]
fn markers_read_from_a_board(rt: HostRuntime) -> Result<(), Fail> {
    let mut image = drawn_image(rt.alloc())?;
    let board = RamBoard::new(&mut image);
    let (found, _draft) = check_sites(rt.alloc(), plan_of(Form2K), &board, &SITES)?;
    are_the_drawn(&rt, &found.found);
    Ok(())
}

#[test]
fn markers_read_from_copies_of_the_image(rt: HostRuntime) -> Result<(), Fail> {
    let mut image = drawn_image(rt.alloc())?;
    let check = SiteCheck { sites: &SITES };
    let (found, _draft) = on_ram_board(rt.alloc(), plan_of(Form4K), &mut image, &check)?;
    are_the_drawn(&rt, &found.found);
    let (found, _draft) = on_interleaved_banks(rt.alloc(), plan_of(Form4K), &mut image, &check)?;
    are_the_drawn(&rt, &found.found);
    Ok(())
}
