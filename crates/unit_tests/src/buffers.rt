use crate::support::{NOTHING, accepted, at, first_is, ordinary, refused, unit_of, zeros};
use crate::tables::{keyed, put_table, small_table};
use boards::ram::RamBoard;
use lanes::width::Width;
use mmu::unit::MemoryUnit;
use page_table::entry::PageEntry;
use paging::form::{Form2K, Form4K, PageForm};
use refusals::refusal::Refusal;
use std::alloc::Global;
use std::process::Abort;
use std::test::Fail;
use storage::words::Storage;
use unit_state::answer::Compared;

// A virtual page: the register that its segment is in, its page number, and the entry of the table that holds it.
pub(crate) type Place = (u32, u32, u16);

// Pages of class 5: the lowest four bits of the page number are 5. Register n has segment ID n. The anchors, 1 XOR 5 = 4, 2
// XOR 5 = 7, 3 XOR 15 = 16 and 4 XOR 25 = 21 (hexadecimal), are 4, 7, 22 and 1 with 32 entries, and 4, 7, 6 and 1 with 16. So
// each chain has one entry, and a walk compares just that.
pub(crate) const A: Place = (1, 0x05, 8);

pub(crate) const B: Place = (2, 0x05, 9);

pub(crate) const C: Place = (3, 0x15, 10);

const D: Place = (4, 0x25, 11);

// A page of class 6, with anchor 8 XOR 6 = 14.
pub(crate) const OTHER_CLASS: Place = (8, 0x06, 12);

// A unit just powered on, and the table. A permits only loads (key 11), the others all.
pub(crate) fn unit_and_table<F: PageForm + Copy, S: Storage>(
    rt: &impl Abort,
    form: F,
    storage: &mut S,
) -> Result<MemoryUnit<F>, Fail> {
    let pages = [
        (8, keyed(1, 0x05, 3)),
        (9, keyed(2, 0x05, 2)),
        (10, keyed(3, 0x15, 2)),
        (11, keyed(4, 0x25, 2)),
        (12, keyed(8, 0x06, 2)),
    ];
    put_table::<F, S>(rt, storage, small_table::<F>(), &pages)?;
    let mut unit = unit_of(form, 16, 1)?;
    for n in 0u16..16 {
        unit.write_segment(u32::from(n), ordinary(n, false))?;
    }
    Ok(unit)
}

// What the walk to a page compares.
pub(crate) fn miss(place: Place) -> Compared {
    let (_, _, entry) = place;
    first_is(entry)
}

// Loads from each page. Beside it stands whether it hits, and so compares nothing; the pages hold zeros.
pub(crate) fn loads<F: PageForm, S: Storage>(
    rt: &impl Abort,
    unit: &mut MemoryUnit<F>,
    storage: &mut S,
    places: &[(Place, bool)],
    case: &str,
) {
    for &(place, hits) in places {
        let (register, page, entry) = place;
        let compared = if hits { NOTHING } else { miss(place) };
        let answer = unit.load(storage, at::<F>(register, page, 0), Width::Word);
        assert_eq!(rt; answer, accepted(0, compared), "{case}: entry {entry}");
    }
}

// Without hits between them, walks fill the first and the second place of the class and then replace the two in turn.
const IN_TURN: [(Place, bool); 10] = [
    // A, then A B, then C B, then C D
    (A, false),
    (B, false),
    (C, false),
    (D, false),
    // so A and B are gone; each of them replaces the one that was found longest ago
    (A, false),
    (B, false),
    // A B
    (A, true),
    (B, true),
    (A, true),
    (B, true),
];

// A hit makes its entry the one used last, so that the next walk replaces the other.
const WITH_HITS: [(Place, bool); 21] = [
    // A B, and A is hit
    (A, false),
    (A, true),
    (B, false),
    (A, true),
    // C replaces B: A C
    (C, false),
    (A, true),
    // B replaces C: A B
    (B, false),
    // C replaces A: C B
    (C, false),
    (B, true),
    // A replaces C: A B
    (A, false),
    (B, true),
    // D replaces A: D B
    (D, false),
    (D, true),
    (B, true),
    // A replaces D: A B; then D replaces B: A D
    (A, false),
    (D, false),
    // another class makes no difference
    (OTHER_CLASS, false),
    (A, true),
    (D, true),
    (OTHER_CLASS, true),
    (A, true),
];

fn class_of_two<F: PageForm + Copy, S: Storage>(
    rt: &impl Abort,
    form: F,
    storage: &mut S,
) -> Result<(), Fail> {
    let mut unit = unit_and_table(rt, form, storage)?;
    loads(rt, &mut unit, storage, &IN_TURN, "in turn");
    let mut unit = unit_and_table(rt, form, storage)?;
    loads(rt, &mut unit, storage, &WITH_HITS, "with hits");
    Ok(())
}

#[test]
fn a_class_filled_and_refilled(rt: HostRuntime) -> Result<(), Fail> {
    class_of_two(&rt, Form2K, &mut RamBoard::new(&mut zeros(rt.alloc())?))?;
    class_of_two(&rt, Form4K, &mut RamBoard::new(&mut zeros(rt.alloc())?))
}

// Stores to A, which protection refuses with 13 on a hit as after a walk.
pub(crate) fn refused_at_a<F: PageForm, S: Storage>(
    rt: &impl Abort,
    unit: &mut MemoryUnit<F>,
    storage: &mut S,
    compared: Compared,
    case: &str,
) {
    let (register, page, _) = A;
    let answer = unit.store(storage, at::<F>(register, page, 0), Width::Word, 1);
    assert_eq!(rt;
        answer,
        refused(Refusal::ProtectionRefused, compared),
        "{case}"
    );
}

// A hit makes its entry the one used last whatever protection says: with A B in the class, the refused store to A lets C
// replace B. A walk that ends in 13 keeps what it found, and it is the one used last.
fn refused_hits<F: PageForm + Copy, S: Storage>(
    rt: &impl Abort,
    form: F,
    storage: &mut S,
) -> Result<(), Fail> {
    let case = "refused hits";
    let mut unit = unit_and_table(rt, form, storage)?;
    loads(rt, &mut unit, storage, &[(A, false), (B, false)], case);
    refused_at_a(rt, &mut unit, storage, NOTHING, case);
    loads(
        rt,
        &mut unit,
        storage,
        &[(C, false), (A, true), (B, false)],
        case,
    );
    let mut unit = unit_and_table(rt, form, storage)?;
    loads(rt, &mut unit, storage, &[(B, false), (C, false)], case);
    // A replaces B
    refused_at_a(rt, &mut unit, storage, miss(A), case);
    loads(
        rt,
        &mut unit,
        storage,
        &[(A, true), (C, true), (A, true), (B, false)],
        case,
    );
    loads(
        rt,
        &mut unit,
        storage,
        &[(A, true), (B, true), (C, false)],
        case,
    );
    Ok(())
}

// A walk that finds nothing replaces nothing, however often, and leaves the one used last as it was. Page 05 of segment 0 has
// anchor 5, which is empty: a page fault that compares nothing. Of A B, where B was used last, C still replaces A.
fn failed_walks<F: PageForm + Copy, S: Storage>(
    rt: &impl Abort,
    form: F,
    storage: &mut S,
) -> Result<(), Fail> {
    let case = "failed walks";
    let mut unit = unit_and_table(rt, form, storage)?;
    loads(rt, &mut unit, storage, &[(A, false), (B, false)], case);
    for _ in 0..3 {
        let answer = unit.load(storage, at::<F>(0, 0x05, 0), Width::Word);
        assert_eq!(rt; answer, refused(Refusal::PageFault, NOTHING), "{case}");
    }
    loads(
        rt,
        &mut unit,
        storage,
        &[(C, false), (B, true), (C, true), (A, false)],
        case,
    );
    Ok(())
}

// A hit reads no table. When the table has only A, and with key 10, which permits all, A is still judged by key 11, which it
// had when it was found; B is still found, and C no more.
fn with_another_table<F: PageForm + Copy, S: Storage>(
    rt: &impl Abort,
    form: F,
    storage: &mut S,
) -> Result<(), Fail> {
    let case = "another table";
    let mut unit = unit_and_table(rt, form, storage)?;
    loads(rt, &mut unit, storage, &[(A, false), (B, false)], case);
    put_table::<F, S>(rt, storage, small_table::<F>(), &[(8, keyed(1, 0x05, 2))])?;
    loads(rt, &mut unit, storage, &[(A, true), (B, true)], case);
    refused_at_a(rt, &mut unit, storage, NOTHING, case);
    let (register, page, _) = C;
    let answer = unit.load(storage, at::<F>(register, page, 0), Width::Word);
    assert_eq!(rt; answer, refused(Refusal::PageFault, NOTHING), "{case}");
    loads(rt, &mut unit, storage, &[(A, true), (B, true)], case);
    Ok(())
}

fn other_requests<F: PageForm + Copy, S: Storage>(
    rt: &impl Abort,
    form: F,
    storage: &mut S,
) -> Result<(), Fail> {
    refused_hits(rt, form, storage)?;
    failed_walks(rt, form, storage)?;
    with_another_table(rt, form, storage)
}

#[test]
fn what_refused_requests_leave_in_a_class(rt: HostRuntime) -> Result<(), Fail> {
    other_requests(&rt, Form2K, &mut RamBoard::new(&mut zeros(rt.alloc())?))?;
    other_requests(&rt, Form4K, &mut RamBoard::new(&mut zeros(rt.alloc())?))
}

// There are sixteen classes of their own. Page n of segment 1, for n from 0 to 15, lies in real page n. The anchors, 1 XOR n,
// all differ, so that the first load of each page compares its entry alone. Then all sixteen are hit.
fn all_classes<F: PageForm + Copy, S: Storage>(
    rt: &impl Abort,
    heap: Global,
    form: F,
    storage: &mut S,
) -> Result<(), Fail> {
    let mut unit = unit_and_table(rt, form, storage)?;
    let pages: Vec<(u16, PageEntry)> = (0u16..16)
        .map(|n| (n, keyed(1, u32::from(n), 2)))
        .collect(heap)?;
    put_table::<F, S>(rt, storage, small_table::<F>(), &pages)?;
    for hits in [false, true, true] {
        for n in 0u16..16 {
            let place = (1, u32::from(n), n);
            loads(rt, &mut unit, storage, &[(place, hits)], "sixteen classes");
        }
    }
    Ok(())
}

#[test]
fn sixteen_classes(rt: HostRuntime) -> Result<(), Fail> {
    let heap = rt.alloc();
    all_classes(&rt, heap, Form2K, &mut RamBoard::new(&mut zeros(heap)?))?;
    all_classes(&rt, heap, Form4K, &mut RamBoard::new(&mut zeros(heap)?))
}
