use crate::buffers::{A, B, C, OTHER_CLASS, Place, loads, miss, refused_at_a, unit_and_table};
use crate::support::{
    ABSENT, LOADED, NOTHING, accepted, at, barred, only_marked, ordinary, refused,
};
use crate::tables::{keyed, put_page, put_table, small_table};
use boards::ram::RamBoard;
use lanes::width::Width;
use mmu::unit::MemoryUnit;
use paging::form::{Form2K, Form4K, PageForm};
use protection::register::SegmentRegister;
use refusals::refusal::Refusal;
use std::process::Abort;
use std::test::Fail;
use storage::words::Storage;

// Another page of the segment of A, in class 1. Its anchor, 1 XOR 1, is 0, and so it is alone in its chain.
const SAME_SEGMENT: Place = (1, 0x01, 13);

const FILLED: [Place; 4] = [A, B, OTHER_CLASS, SAME_SEGMENT];

// A purge of all entries, of the segment of a register, or of a page by a register and a page number.
#[derive(Clone, Copy)]
enum What {
    All,
    Segment(u32),
    Page(u32, u32),
}

// The place in the page makes no difference.
fn purge<F: PageForm>(unit: &mut MemoryUnit<F>, what: What) -> Result<(), Refusal> {
    match what {
        What::All => unit.purge_all(),
        What::Segment(number) => unit.purge_segment(number)?,
        What::Page(register, page) => unit.purge_page(at::<F>(register, page, 0x7ff)),
    }
    Ok(())
}

// Register n has segment ID n but for two: the segment of A is in register 9 too, where it is absent, and that of B in register
// 10, where it is barred.
fn register_of(n: u16) -> SegmentRegister {
    match n {
        9 => SegmentRegister {
            segment: 1,
            ..ABSENT
        },
        10 => barred(2),
        _ => ordinary(n, false),
    }
}

// A unit whose buffers hold four pages. A store to A was refused on a hit, and B is the one used last of their class.
fn filled<F: PageForm + Copy, S: Storage>(
    rt: &impl Abort,
    form: F,
    storage: &mut S,
) -> Result<MemoryUnit<F>, Fail> {
    let case = "filled";
    let mut unit = unit_and_table(rt, form, storage)?;
    put_page::<F, S>(rt, storage, small_table::<F>(), 13, keyed(1, 0x01, 2))?;
    unit.write_segment(9, register_of(9))?;
    unit.write_segment(10, register_of(10))?;
    unit.write_transaction(0x5a);
    unit.write_long_stop(true);
    for place in FILLED {
        loads(rt, &mut unit, storage, &[(place, false)], case);
    }
    refused_at_a(rt, &mut unit, storage, NOTHING, case);
    loads(rt, &mut unit, storage, &[(B, true)], case);
    Ok(unit)
}

// Checks that all but the buffers is as it was left by `filled`: the refused store set bit 30 for 13, which is 2, and locked
// its address.
fn has_the_rest<F: PageForm>(rt: &impl Abort, unit: &MemoryUnit<F>, case: &str) {
    let exceptions = unit.exceptions();
    assert_eq!(rt; exceptions.word(), 2, "{case}");
    assert_eq!(rt; exceptions.address, at::<F>(1, 0x05, 0), "{case}");
    assert!(rt; exceptions.locked, "{case}");
    let marks = [(8, LOADED), (9, LOADED), (12, LOADED), (13, LOADED)];
    only_marked(rt, unit, small_table::<F>().entries, &marks);
    for n in 0u16..16 {
        assert_eq!(rt; unit.segment(u32::from(n)), Ok(register_of(n)), "{case}");
    }
    assert_eq!(rt; unit.transaction(), 0x5a, "{case}");
    assert!(rt; unit.long_stop(), "{case}");
}

// Loads from the four pages. Of A and B, B was used last, and so a walk to A replaces no entry of B.
fn hits_after<F: PageForm, S: Storage>(
    rt: &impl Abort,
    unit: &mut MemoryUnit<F>,
    storage: &mut S,
    hits: [bool; 4],
    case: &str,
) {
    for (place, hit) in FILLED.into_iter().zip(hits) {
        loads(rt, unit, storage, &[(place, hit)], case);
    }
}

// What is purged, and whether A, B, the page of another class and the page of the segment of A are hit afterwards. Segment 1
// has A and the last, segment 2 has B, and segment 8 the page of another class. Segments go by their ID, whichever register
// holds it. A and B have the same page number.
const PURGES: [(What, [bool; 4]); 14] = [
    (What::All, [false, false, false, false]),
    (What::Segment(1), [false, true, true, false]),
    (What::Segment(9), [false, true, true, false]),
    (What::Segment(2), [true, false, true, true]),
    (What::Segment(10), [true, false, true, true]),
    (What::Segment(8), [true, true, false, true]),
    (What::Segment(0), [true, true, true, true]),
    (What::Page(1, 0x05), [false, true, true, true]),
    (What::Page(9, 0x05), [false, true, true, true]),
    (What::Page(2, 0x05), [true, false, true, true]),
    (What::Page(10, 0x05), [true, false, true, true]),
    (What::Page(1, 0x01), [true, true, true, false]),
    (What::Page(1, 0x06), [true, true, true, true]),
    (What::Page(1, 0x15), [true, true, true, true]),
];

fn take_what_they_name<F: PageForm + Copy, S: Storage>(
    rt: &impl Abort,
    form: F,
    storage: &mut S,
) -> Result<(), Fail> {
    for (what, hits) in PURGES {
        let mut unit = filled(rt, form, storage)?;
        assert_eq!(rt; purge(&mut unit, what), Ok(()));
        has_the_rest(rt, &unit, "purged");
        hits_after(rt, &mut unit, storage, hits, "purged");
    }
    Ok(())
}

// A register above 15 is refused with 3, and nothing changes.
fn refuse_others<F: PageForm + Copy, S: Storage>(
    rt: &impl Abort,
    form: F,
    storage: &mut S,
) -> Result<(), Fail> {
    assert_eq!(rt; Refusal::RegisterOutside.number(), 3);
    let mut unit = filled(rt, form, storage)?;
    for number in [16, 17, 31, 0xffff_ffff] {
        let refused = Err(Refusal::RegisterOutside);
        assert_eq!(rt; unit.purge_segment(number), refused, "register {number}");
        has_the_rest(rt, &unit, "refused");
        hits_after(rt, &mut unit, storage, [true; 4], "refused");
    }
    Ok(())
}

#[test]
fn purges_take_what_they_name(rt: HostRuntime) -> Result<(), Fail> {
    let mut bytes = vec![in rt.alloc(); 0u8; 65536]?;
    take_what_they_name(&rt, Form2K, &mut RamBoard::new(&mut bytes))?;
    refuse_others(&rt, Form2K, &mut RamBoard::new(&mut bytes))?;
    let mut bytes = vec![in rt.alloc(); 0u8; 65536]?;
    take_what_they_name(&rt, Form4K, &mut RamBoard::new(&mut bytes))?;
    refuse_others(&rt, Form4K, &mut RamBoard::new(&mut bytes))
}

// Loads from A and B, which fill the first and the second place of their class, and from A once more if that is to be the one
// used last. Then purges, and loads from more pages.
fn replaced_next<F: PageForm + Copy, S: Storage>(
    rt: &impl Abort,
    form: F,
    storage: &mut S,
    a_was_used_last: bool,
    what: What,
    places: &[(Place, bool)],
) -> Result<(), Fail> {
    let case = "replaced next";
    let mut unit = unit_and_table(rt, form, storage)?;
    loads(rt, &mut unit, storage, &[(A, false), (B, false)], case);
    if a_was_used_last {
        loads(rt, &mut unit, storage, &[(A, true)], case);
    }
    assert_eq!(rt; purge(&mut unit, what), Ok(()));
    loads(rt, &mut unit, storage, places, case);
    Ok(())
}

// The next walk replaces the entry that it would have replaced without the purge, valid or not.
fn keep_the_mark<F: PageForm + Copy, S: Storage>(
    rt: &impl Abort,
    form: F,
    storage: &mut S,
) -> Result<(), Fail> {
    let of_a = What::Page(1, 0x05);
    let of_b = What::Segment(2);
    // B was used last, and so C replaces A though the place of B is free. Then A fills that.
    let places = [(C, false), (A, false), (C, true), (A, true)];
    replaced_next(rt, form, storage, false, of_b, &places)?;
    // A was used last, and so C fills the place of B.
    let places = [(C, false), (A, true), (C, true)];
    replaced_next(rt, form, storage, true, of_b, &places)?;
    // A was used last, and so C replaces B though the place of A is free. Then B fills that.
    let places = [(C, false), (B, false), (C, true), (B, true)];
    replaced_next(rt, form, storage, true, of_a, &places)?;
    // B was used last, and so C fills the place of A.
    let places = [(C, false), (B, true), (C, true)];
    replaced_next(rt, form, storage, false, of_a, &places)
}

#[test]
fn purges_keep_the_mark_of_the_one_used_last(rt: HostRuntime) -> Result<(), Fail> {
    let mut bytes = vec![in rt.alloc(); 0u8; 65536]?;
    keep_the_mark(&rt, Form2K, &mut RamBoard::new(&mut bytes))?;
    let mut bytes = vec![in rt.alloc(); 0u8; 65536]?;
    keep_the_mark(&rt, Form4K, &mut RamBoard::new(&mut bytes))
}

// A new table has only A, and with key 10, which permits stores, where it had 11. It does not reach the entries that are there.
// Once A is purged a walk finds the new key, and once all are, B is a page fault at its anchor, which compares nothing.
fn let_a_new_table_in<F: PageForm + Copy, S: Storage>(
    rt: &impl Abort,
    form: F,
    storage: &mut S,
) -> Result<(), Fail> {
    let case = "a new table";
    let mut unit = unit_and_table(rt, form, storage)?;
    loads(rt, &mut unit, storage, &[(A, false), (B, false)], case);
    put_table::<F, S>(rt, storage, small_table::<F>(), &[(8, keyed(1, 0x05, 2))])?;
    refused_at_a(rt, &mut unit, storage, NOTHING, case);
    // B is now the one used last, and so the walk to A does not replace it
    loads(rt, &mut unit, storage, &[(B, true)], case);
    assert_eq!(rt; purge(&mut unit, What::Page(1, 0x05)), Ok(()));
    let answer = unit.store(storage, at::<F>(1, 0x05, 0), Width::Word, 0);
    assert_eq!(rt; answer, accepted(0, miss(A)), "{case}");
    loads(rt, &mut unit, storage, &[(B, true)], case);
    assert_eq!(rt; purge(&mut unit, What::All), Ok(()));
    let answer = unit.load(storage, at::<F>(2, 0x05, 0), Width::Word);
    assert_eq!(rt; answer, refused(Refusal::PageFault, NOTHING), "{case}");
    Ok(())
}

#[test]
fn purges_let_a_new_table_in(rt: HostRuntime) -> Result<(), Fail> {
    let mut bytes = vec![in rt.alloc(); 0u8; 65536]?;
    let_a_new_table_in(&rt, Form2K, &mut RamBoard::new(&mut bytes))?;
    let mut bytes = vec![in rt.alloc(); 0u8; 65536]?;
    let_a_new_table_in(&rt, Form4K, &mut RamBoard::new(&mut bytes))
}
