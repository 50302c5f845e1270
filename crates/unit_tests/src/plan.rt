use crate::support::{plan_of, unit_of};
use paging::bounded::BoundedNumber;
use paging::draft::Draft;
use paging::form::{Form2K, Form4K, PageForm};
use std::process::Abort;
use std::test::Fail;

// Settles a draft and checks the number of the refusal, 0 where it settles. In both cases the draft's numbers have to come
// back as they were; so they are passed one by one, since settling takes the draft.
fn settles<F: PageForm + Copy>(rt: &impl Abort, form: F, exponent: u32, base: u32, number: u8) {
    let drafted = Draft {
        form,
        exponent,
        base,
    };
    let (given, draft) = match drafted.settle() {
        Ok(plan) => (0, plan.redraft()),
        Err(refused) => (refused.refusal.number(), refused.draft),
    };
    assert_eq!(rt; given, number, "exponent {exponent}, base {base}");
    assert_eq!(rt; draft.exponent, exponent);
    assert_eq!(rt; draft.base, base);
}

// The exponent has to be 16 to 24, else the number is 1; then the base no higher than the form's highest, else it is 2.
fn settles_at_the_edges<F: PageForm + Copy>(rt: &impl Abort, form: F, highest: u32, above: u32) {
    for exponent in [0, 15, 25, 0xffff_ffff] {
        for base in [0, highest, above, 0xffff_ffff] {
            settles(rt, form, exponent, base, 1);
        }
    }
    for exponent in [16, 17, 23, 24] {
        settles(rt, form, exponent, 0, 0);
        settles(rt, form, exponent, highest, 0);
        settles(rt, form, exponent, above, 2);
        settles(rt, form, exponent, 0xffff_ffff, 2);
    }
}

#[test]
fn drafts_settle_at_the_edges(rt: HostRuntime) {
    settles_at_the_edges(&rt, Form2K, 127, 128);
    settles_at_the_edges(&rt, Form4K, 255, 256);
}

fn bounded<const HIGHEST: u32>(number: u32) -> Option<u32> {
    match BoundedNumber::<HIGHEST>::new(number) {
        Some(bounded) => Some(bounded.number()),
        None => None,
    }
}

// A number is there up to the highest, whether or not a page form has that one, and is what it was made from.
#[test]
fn bounded_numbers_at_their_highest(rt: HostRuntime) {
    assert_eq!(rt; bounded::<0>(0), Some(0));
    assert_eq!(rt; bounded::<0>(1), None);
    assert_eq!(rt; bounded::<63>(63), Some(63));
    assert_eq!(rt; bounded::<63>(64), None);
    assert_eq!(rt; bounded::<0xffff_ffff>(0xffff_ffff), Some(0xffff_ffff));
}

// Exponents and bases, and where the table starts and how many entries it has.
fn have_tables<F: PageForm + Copy>(
    rt: &impl Abort,
    form: F,
    rows: &[(u32, u32, u32, u32)],
) -> Result<(), Fail> {
    for &(exponent, base, start, entries) in rows {
        let plan = plan_of(form, exponent, base)?;
        let span = plan.table();
        assert_eq!(rt;
            span.start.number,
            start,
            "exponent {exponent}, base {base}"
        );
        assert_eq!(rt; span.entries, entries);
        assert_eq!(rt; plan.page_count(), entries);
    }
    Ok(())
}

// A storage of 2^k bytes has P = 2^k / page length pages, and its table P entries from base * 16 * P on. Pages of 2,048: k 16
// has 32, 16 * 32 = 512; k 20 has 512, 5 * 8,192 = 40,960; k 24 has 8,192, 127 * 131,072 = 16,646,144. Pages of 4,096: k 16
// has 16, 255 * 256 = 65,280; k 17 has 32; k 24 has 4,096, 255 * 65,536 = 16,711,680.
#[test]
fn tables_start_at_their_base(rt: HostRuntime) -> Result<(), Fail> {
    let in_2k = [
        (16, 0, 0, 32),
        (16, 1, 512, 32),
        (16, 127, 65024, 32),
        (20, 5, 40960, 512),
        (24, 127, 16646144, 8192),
    ];
    have_tables(&rt, Form2K, &in_2k)?;
    let in_4k = [
        (16, 0, 0, 16),
        (16, 3, 768, 16),
        (16, 255, 65280, 16),
        (17, 1, 512, 32),
        (24, 255, 16711680, 4096),
    ];
    have_tables(&rt, Form4K, &in_4k)
}

fn ends_with_the_storage<F: PageForm + Copy>(
    rt: &impl Abort,
    form: F,
    highest: u32,
) -> Result<(), Fail> {
    for (exponent, bytes) in [
        (16, 0x1_0000),
        (17, 0x2_0000),
        (18, 0x4_0000),
        (19, 0x8_0000),
        (20, 0x10_0000),
        (21, 0x20_0000),
        (22, 0x40_0000),
        (23, 0x80_0000),
        (24, 0x100_0000),
    ] {
        let plan = plan_of(form, exponent, highest)?;
        let span = plan.table();
        let end = u64::from(span.start.number) + 16 * u64::from(span.entries);
        assert_eq!(rt; plan.storage_bytes(), bytes);
        assert_eq!(rt; end, u64::from(bytes), "exponent {exponent}");
    }
    Ok(())
}

// The table of the highest base ends exactly where the storage ends, 2^k: (highest + 1) * 16 is a page.
#[test]
fn the_last_table_ends_with_the_storage(rt: HostRuntime) -> Result<(), Fail> {
    ends_with_the_storage(&rt, Form2K, 127)?;
    ends_with_the_storage(&rt, Form4K, 255)
}

fn comes_back<F: PageForm + Copy>(
    rt: &impl Abort,
    form: F,
    exponent: u32,
    base: u32,
) -> Result<(), Fail> {
    let draft = unit_of(form, exponent, base)?.end();
    assert_eq!(rt; draft.exponent, exponent);
    assert_eq!(rt; draft.base, base);
    Ok(())
}

// A unit whose use ends gives back the numbers that it was powered on from, and they settle again.
#[test]
fn an_ended_unit_gives_its_plan_back(rt: HostRuntime) -> Result<(), Fail> {
    comes_back(&rt, Form2K, 16, 127)?;
    comes_back(&rt, Form2K, 24, 0)?;
    comes_back(&rt, Form4K, 20, 255)
}

// A draft that was refused can be altered and settled: only its base was wrong.
#[test]
fn a_refused_draft_can_be_mended(rt: HostRuntime) -> Result<(), Fail> {
    let draft = Draft {
        form: Form2K,
        exponent: 16,
        base: 128,
    };
    match draft.settle() {
        Ok(_) => Err(Fail::new("a base above the highest is settled")),
        Err(refused) => {
            let mut mended = refused.draft;
            mended.base = 127;
            assert!(rt; mended.settle().is_ok());
            Ok(())
        }
    }
}
