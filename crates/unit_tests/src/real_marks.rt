use crate::support::{
    LOADED, NOTHING, STORED, Step, UNMARKED, accepted, only_marked, real_at, unit_of, zeros,
};
use boards::ram::RamBoard;
use lanes::width::Width;
use mmu::unit::MemoryUnit;
use paging::form::{Form2K, Form4K, PageForm};
use refusals::refusal::Refusal;
use std::process::Abort;
use std::test::Fail;
use storage::words::Storage;
use unit_state::answers::answer_number;

// A load sets the reference mark of its page, a store the change mark too, and a later load clears neither. Only the page that
// was used is marked: the last byte before page 2 marks page 1. Clearing takes both marks of one page.
fn uses<F: PageForm + Copy, S: Storage>(
    rt: &impl Abort,
    form: F,
    storage: &mut S,
    pages: u32,
    second: u32,
) -> Result<(), Fail> {
    let mut unit = unit_of(form, 16, 0)?;
    only_marked(rt, &unit, pages, &[]);
    assert!(rt; second > 0);
    for (step, address, width, value, one, two) in [
        (Step::Load, second - 1, Width::Byte, 0, LOADED, UNMARKED),
        (Step::Store(9), second, Width::Word, 0, LOADED, STORED),
        (Step::Load, second, Width::Word, 9, LOADED, STORED),
        (Step::Store(0), second - 1, Width::Byte, 0, STORED, STORED),
    ] {
        let answer = step.by_real(&mut unit, storage, real_at(address), width);
        assert_eq!(rt; answer, accepted(value, NOTHING));
        only_marked(rt, &unit, pages, &[(1, one), (2, two)]);
    }
    assert_eq!(rt; unit.clear_page_mark(2), Ok(()));
    only_marked(rt, &unit, pages, &[(1, STORED)]);
    let loaded = unit.load_real(storage, real_at(second), Width::Word);
    assert_eq!(rt; loaded, accepted(9, NOTHING));
    only_marked(rt, &unit, pages, &[(1, STORED), (2, LOADED)]);
    Ok(())
}

#[test]
fn requests_mark_the_page_they_use(rt: HostRuntime) -> Result<(), Fail> {
    let heap = rt.alloc();
    uses(&rt, Form2K, &mut RamBoard::new(&mut zeros(heap)?), 32, 4096)?;
    uses(&rt, Form4K, &mut RamBoard::new(&mut zeros(heap)?), 16, 8192)
}

// A unit whose pages 0 and the last are stored to.
fn used<F: PageForm + Copy, S: Storage>(
    rt: &impl Abort,
    form: F,
    storage: &mut S,
) -> Result<MemoryUnit<F>, Fail> {
    let mut unit = unit_of(form, 16, 0)?;
    for address in [0, 0xffff] {
        let stored = unit.store_real(storage, real_at(address), Width::Byte, 1);
        assert_eq!(rt; stored, accepted(0, NOTHING));
    }
    Ok(unit)
}

// Pages 0 to P - 1 have marks. The calls refuse page P and every one above with the number 15, and a refused call clears
// nothing.
fn edges<F: PageForm + Copy, S: Storage>(
    rt: &impl Abort,
    form: F,
    storage: &mut S,
    pages: u32,
    last: u32,
) -> Result<(), Fail> {
    let mut unit = used(rt, form, storage)?;
    assert_eq!(rt; Refusal::PageMarkOutside.number(), 15);
    for page in [pages, 8191, 8192, 0xffff_ffff] {
        assert_eq!(rt; unit.page_mark(page), Err(Refusal::PageMarkOutside));
        assert_eq!(rt; unit.clear_page_mark(page), Err(Refusal::PageMarkOutside));
    }
    only_marked(rt, &unit, pages, &[(0, STORED), (last, STORED)]);
    assert_eq!(rt; unit.page_mark(last), Ok(STORED));
    assert_eq!(rt; unit.clear_page_mark(last), Ok(()));
    only_marked(rt, &unit, pages, &[(0, STORED)]);
    assert_eq!(rt; unit.clear_page_mark(last), Ok(()));
    only_marked(rt, &unit, pages, &[(0, STORED)]);
    Ok(())
}

#[test]
fn marks_of_the_last_page_and_beyond(rt: HostRuntime) -> Result<(), Fail> {
    let mut bytes = zeros(rt.alloc())?;
    edges(&rt, Form2K, &mut RamBoard::new(&mut bytes), 32, 31)?;
    edges(&rt, Form4K, &mut RamBoard::new(&mut bytes), 16, 15)
}

// A refused request marks no page: a value too wide, a storage of another size, an address outside.
fn refusals<F: PageForm + Copy, S: Storage>(
    rt: &impl Abort,
    form: F,
    storage: &mut S,
    pages: u32,
    stores: &[(Width, u32, u32, u8)],
) -> Result<(), Fail> {
    let mut unit = unit_of(form, 16, 0)?;
    for &(width, address, value, number) in stores {
        let stored = unit.store_real(storage, real_at(address), width, value);
        assert_eq!(rt; answer_number(&stored), number);
        if number != 5 {
            let loaded = unit.load_real(storage, real_at(address), width);
            assert_eq!(rt; answer_number(&loaded), number);
        }
        only_marked(rt, &unit, pages, &[]);
    }
    Ok(())
}

#[test]
fn refused_requests_mark_nothing(rt: HostRuntime) -> Result<(), Fail> {
    let mut bytes = zeros(rt.alloc())?;
    let outside = [
        (Width::Byte, 0, 0x100, 5),
        (Width::Halfword, 0xffff, 0x1_0000, 5),
        (Width::Word, 0x1_0000, 0, 7),
    ];
    refusals(&rt, Form2K, &mut RamBoard::new(&mut bytes), 32, &outside)?;
    refusals(&rt, Form4K, &mut RamBoard::new(&mut bytes), 16, &outside)?;
    let mut longer = vec![in rt.alloc(); 0u8; 65540]?;
    let size = [(Width::Byte, 0, 0xff, 4), (Width::Word, 0xffff, 0, 4)];
    refusals(&rt, Form2K, &mut RamBoard::new(&mut longer), 32, &size)?;
    refusals(&rt, Form4K, &mut RamBoard::new(&mut longer), 16, &size)
}

// Power-on leaves no mark, not even in the largest storage, which has 8,192 pages of 2,048 bytes or 4,096 of 4,096.
#[test]
fn power_on_marks_nothing(rt: HostRuntime) -> Result<(), Fail> {
    only_marked(&rt, &unit_of(Form2K, 24, 0)?, 8192, &[]);
    only_marked(&rt, &unit_of(Form4K, 24, 0)?, 4096, &[]);
    assert_eq!(rt; unit_of(Form2K, 24, 0)?.page_mark(8191), Ok(UNMARKED));
    assert_eq!(rt;
        unit_of(Form4K, 24, 0)?.page_mark(4096),
        Err(Refusal::PageMarkOutside)
    );
    Ok(())
}

// Marks end with the use of the unit: the same plan, settled and powered on again, has none.
fn restarts<F: PageForm + Copy, S: Storage>(
    rt: &impl Abort,
    form: F,
    storage: &mut S,
    pages: u32,
    last: u32,
) -> Result<(), Fail> {
    let unit = used(rt, form, storage)?;
    only_marked(rt, &unit, pages, &[(0, STORED), (last, STORED)]);
    let plan = unit
        .end()
        .settle()
        .map_err(|refused| Fail::from(refused.refusal))?;
    only_marked(rt, &MemoryUnit::power_on(plan), pages, &[]);
    Ok(())
}

#[test]
fn a_unit_that_starts_anew_has_no_marks(rt: HostRuntime) -> Result<(), Fail> {
    let mut bytes = zeros(rt.alloc())?;
    restarts(&rt, Form2K, &mut RamBoard::new(&mut bytes), 32, 31)?;
    restarts(&rt, Form4K, &mut RamBoard::new(&mut bytes), 16, 15)
}
