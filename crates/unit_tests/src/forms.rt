use paging::base::BaseNumber;
use paging::form::{Form2K, Form4K, PageForm};
use std::process::Abort;
use std::test::Fail;

fn has_numbers<F: PageForm>(rt: &impl Abort, page: u32, line: u32, width: u32, highest: u32) {
    let form = F::geometry();
    assert_eq!(rt; form.page, page);
    assert_eq!(rt; form.line, line);
    assert_eq!(rt; form.width, width);
    assert_eq!(rt; form.highest, highest);
    assert_eq!(rt; F::PAGE_BYTES, page);
    assert_eq!(rt; F::LINE_BYTES, line);
    assert_eq!(rt; F::NUMBER_BITS, width);
    assert_eq!(rt; F::HIGHEST_BASE, highest);
}

// A page has 2,048 or 4,096 bytes, in 16 lines. Page numbers fill the offset of 28 bits: 28 - 11 and 28 - 12 bits. There is a
// base number for each 16 bytes of a page: 2,048 / 16 and 4,096 / 16 of them, from 0 on.
#[test]
fn numbers_of_both_forms(rt: HostRuntime) {
    has_numbers::<Form2K>(&rt, 2048, 128, 17, 127);
    has_numbers::<Form4K>(&rt, 4096, 256, 16, 255);
}

fn takes_bases<F: PageForm>(rt: &impl Abort, highest: u32, above: u32) -> Result<(), Fail> {
    for number in [0, 1, highest] {
        match BaseNumber::<F>::new(number) {
            Some(base) => assert_eq!(rt; base.number(), number),
            None => return Err(Fail::new("a base number that the form allows is refused")),
        }
    }
    for number in [above, 0xffff_ffff] {
        assert!(rt; BaseNumber::<F>::new(number).is_none(), "base {number}");
    }
    Ok(())
}

// A base number goes in and comes out as it is, up to the form's highest and no further. 128 is too high for pages of 2,048
// bytes and not for pages of 4,096.
#[test]
fn base_numbers_at_the_edge(rt: HostRuntime) -> Result<(), Fail> {
    takes_bases::<Form2K>(&rt, 127, 128)?;
    takes_bases::<Form4K>(&rt, 128, 256)?;
    takes_bases::<Form4K>(&rt, 255, 256)
}
