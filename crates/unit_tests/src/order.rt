use crate::support::{
    LOADED, NOTHING, STORED, Step, accepted, at, barred, first_is, only_marked, ordinary, refused,
    special, unit_of, up_to, words_of, zeros,
};
use crate::tables::{keyed, locked, put_anchor, put_link, put_table, small_table};
use boards::ram::RamBoard;
use lanes::width::Width;
use mmu::unit::MemoryUnit;
use paging::form::{Form2K, Form4K, PageForm};
use protection::register::SegmentRegister;
use refusals::refusal::Refusal;
use std::alloc::Global;
use std::process::Abort;
use std::test::Fail;
use storage::words::Storage;
use unit_state::answer::Compared;
use unit_state::answers::{answer_number, answer_value};

// A table, and a unit to go with it. Segment 6 has page 30 in real page 5, key 00; it has anchor 36 hexadecimal, which is 22
// with 32 entries and 6 with 16. Segment 9 is special and has page 30 in real page 4, transaction ID 1 and no other bit; its
// anchor is 39: 25 and 9. Anchor 6 XOR 37 = 31, which is 17 and 1, points outside the table. Page 34 of segment 6 has anchor
// 32: 18 and 2. There entry 7 holds page 54, which has that anchor too, and points to itself. Page 50 of segment 6 has anchor
// 56, the same as page 30, which is the last of its chain, and page 31 has anchor 37, which is 23 and 7, and is empty.
fn put_pages<F: PageForm, S: Storage>(
    rt: &impl Abort,
    storage: &mut S,
    outside: u32,
) -> Result<(), Fail> {
    let table = small_table::<F>();
    let pages = [
        (5, keyed(6, 0x30, 0)),
        (4, locked(9, 0x30, false, 1, 0)),
        (7, keyed(6, 0x54, 2)),
    ];
    put_table::<F, S>(rt, storage, table, &pages)?;
    put_link(rt, storage, table, 7, false, 7)?;
    put_anchor(rt, storage, table, outside, false, 8191)
}

// Register 0 is absent, and barred besides. Register 1 is barred. Register 2 has K 1 and register 3 K 0. All four have
// segment 6, and register 4 has segment 9.
fn unit_of_five<F: PageForm + Copy>(form: F) -> Result<MemoryUnit<F>, Fail> {
    let absent = SegmentRegister {
        present: false,
        barred: true,
        segment: 6,
        special: false,
        key: true,
    };
    let mut unit = unit_of(form, 16, 1)?;
    unit.write_segment(0, absent)?;
    unit.write_segment(1, barred(6))?;
    unit.write_segment(2, ordinary(6, true))?;
    unit.write_segment(3, ordinary(6, false))?;
    unit.write_segment(4, special(9))?;
    Ok(unit)
}

// A request for a byte: the register and the page to ask for, what to do, the refusal and what was compared before it.
type Refused = (u32, u32, Step, Refusal, Compared);

// What `first_is` says of entries 4 and 5, since a constant cannot call it.
const ONLY_4: Compared = Compared {
    count: 1,
    last: Some(4),
};

const ONLY_5: Compared = Compared {
    count: 1,
    last: Some(5),
};

const WIDE: Step = Step::Store(0x100);

const STORE: Step = Step::Store(0xff);

// In a storage of another size: 5 before 4, and 4 before all others.
const IN_SHORT: [Refused; 8] = [
    (0, 0x30, WIDE, Refusal::ValueTooWide, NOTHING),
    (3, 0x30, WIDE, Refusal::ValueTooWide, NOTHING),
    (0, 0x30, Step::Load, Refusal::SizeDiffers, NOTHING),
    (0, 0x30, STORE, Refusal::SizeDiffers, NOTHING),
    (1, 0x30, STORE, Refusal::SizeDiffers, NOTHING),
    (2, 0x30, STORE, Refusal::SizeDiffers, NOTHING),
    (2, 0x31, STORE, Refusal::SizeDiffers, NOTHING),
    (3, 0x30, Step::Load, Refusal::SizeDiffers, NOTHING),
];

// In a storage of the right size.
const REFUSED: [Refused; 21] = [
    // a value too wide comes before the register, the page fault, the key and the locks
    (0, 0x30, WIDE, Refusal::ValueTooWide, NOTHING),
    (1, 0x30, WIDE, Refusal::ValueTooWide, NOTHING),
    (2, 0x31, WIDE, Refusal::ValueTooWide, NOTHING),
    (2, 0x30, WIDE, Refusal::ValueTooWide, NOTHING),
    (4, 0x30, WIDE, Refusal::ValueTooWide, NOTHING),
    // absent comes before barred, and both before the page fault and the key
    (0, 0x30, Step::Load, Refusal::SegmentAbsent, NOTHING),
    (0, 0x31, STORE, Refusal::SegmentAbsent, NOTHING),
    (1, 0x30, Step::Load, Refusal::SegmentBarred, NOTHING),
    (1, 0x30, STORE, Refusal::SegmentBarred, NOTHING),
    (1, 0x31, Step::Load, Refusal::SegmentBarred, NOTHING),
    (1, 0x37, STORE, Refusal::SegmentBarred, NOTHING),
    // K 1 and key 00 permit nothing, but what is not found is no matter of keys
    (2, 0x31, Step::Load, Refusal::PageFault, NOTHING),
    (2, 0x31, STORE, Refusal::PageFault, NOTHING),
    (2, 0x50, Step::Load, Refusal::PageFault, ONLY_5),
    (2, 0x50, STORE, Refusal::PageFault, ONLY_5),
    (2, 0x37, Step::Load, Refusal::PointerOutside, NOTHING),
    (2, 0x37, STORE, Refusal::PointerOutside, NOTHING),
    (2, 0x30, STORE, Refusal::ProtectionRefused, ONLY_5),
    (2, 0x30, Step::Load, Refusal::ProtectionRefused, NOTHING),
    // another transaction ID, and neither write bit nor lock bit
    (4, 0x30, STORE, Refusal::LockRefused, ONLY_4),
    (4, 0x30, Step::Load, Refusal::LockRefused, NOTHING),
];

// Checks requests that are refused. The value of such an answer is 0.
fn refuses<F: PageForm, S: Storage>(
    rt: &impl Abort,
    unit: &mut MemoryUnit<F>,
    storage: &mut S,
    requests: &[Refused],
) {
    for &(register, page, step, refusal, compared) in requests {
        let address = at::<F>(register, page, 1);
        let answer = step.by_effective(unit, storage, address, Width::Byte);
        assert_eq!(rt;
            answer,
            refused(refusal, compared),
            "register {register}, page {page}"
        );
        assert_eq!(rt; answer_number(&answer), refusal.number());
        assert_eq!(rt; answer_value(&answer), 0);
    }
}

// The chain without an end: with the long-stop bit off it is left after as many entries as the table has, with it on after
// 127.
fn refuses_endless_chain<F: PageForm, S: Storage>(
    rt: &impl Abort,
    unit: &mut MemoryUnit<F>,
    storage: &mut S,
    entries: u16,
) {
    for (long_stop, refusal, compared) in [
        (false, Refusal::EndlessChain, entries),
        (true, Refusal::LongSearch, 127),
    ] {
        unit.write_long_stop(long_stop);
        for step in [Step::Load, STORE] {
            let request = (2, 0x34, step, refusal, up_to(compared, 7));
            refuses(rt, unit, storage, &[request]);
        }
    }
}

// A page that the look-aside buffers have makes no difference to what comes before them. Page 30 of segment 6 is one, as the
// load through register 3 shows, which has K 0.
fn refuses_on_hits<F: PageForm, S: Storage, T: Storage>(
    rt: &impl Abort,
    unit: &mut MemoryUnit<F>,
    storage: &mut S,
    short: &mut T,
) {
    let loaded = unit.load(storage, at::<F>(3, 0x30, 1), Width::Byte);
    assert_eq!(rt; loaded, accepted(0, NOTHING));
    refuses(rt, unit, short, &IN_SHORT);
    let hits = [
        (3, 0x30, WIDE, Refusal::ValueTooWide, NOTHING),
        (0, 0x30, Step::Load, Refusal::SegmentAbsent, NOTHING),
        (1, 0x30, STORE, Refusal::SegmentBarred, NOTHING),
        (2, 0x30, STORE, Refusal::ProtectionRefused, NOTHING),
    ];
    refuses(rt, unit, storage, &hits);
}

// A request that breaks several rules is refused by the first of them. No refused request marks a page, not even that of the
// table, or alters a word of the storage.
fn first_rule<F: PageForm + Copy, S: Storage, T: Storage>(
    rt: &impl Abort,
    heap: Global,
    form: F,
    storage: &mut S,
    short: &mut T,
    entries: u16,
    outside: u32,
) -> Result<(), Fail> {
    put_pages::<F, S>(rt, storage, outside)?;
    let words = words_of(heap, storage)?;
    let words_in_short = words_of(heap, short)?;
    let mut unit = unit_of_five(form)?;
    refuses(rt, &mut unit, short, &IN_SHORT);
    refuses(rt, &mut unit, storage, &REFUSED);
    refuses_endless_chain(rt, &mut unit, storage, entries);
    only_marked(rt, &unit, u32::from(entries), &[]);
    refuses_on_hits(rt, &mut unit, storage, short);
    only_marked(rt, &unit, u32::from(entries), &[(5, LOADED)]);
    assert_eq!(rt;
        words_of(heap, short)?.as_slice(),
        words_in_short.as_slice()
    );
    assert_eq!(rt; words_of(heap, storage)?.as_slice(), words.as_slice());
    Ok(())
}

#[test]
fn the_first_rule_that_is_broken_counts(rt: HostRuntime) -> Result<(), Fail> {
    let heap = rt.alloc();
    let mut less = vec![in heap; 0u8; 65532]?;
    let mut short = RamBoard::new(&mut less);
    let mut bytes = zeros(heap)?;
    let mut board = RamBoard::new(&mut bytes);
    first_rule(&rt, heap, Form2K, &mut board, &mut short, 32, 17)?;
    let mut bytes = zeros(heap)?;
    let mut board = RamBoard::new(&mut bytes);
    first_rule(&rt, heap, Form4K, &mut board, &mut short, 16, 1)
}

// An accepted load marks its real page referenced, and an accepted store changed too, after a walk as on a hit. A refused
// request marks nothing: register 2, with K 1, may use no page of key 00.
fn marks<F: PageForm + Copy, S: Storage>(
    rt: &impl Abort,
    form: F,
    storage: &mut S,
    pages: u32,
) -> Result<(), Fail> {
    put_pages::<F, S>(rt, storage, 1)?;
    let mut unit = unit_of_five(form)?;
    for (register, page, step, number, real_page, mark) in [
        (3, 0x30, Step::Load, 0, 5, LOADED),
        (3, 0x30, STORE, 0, 5, STORED),
        (3, 0x30, Step::Load, 0, 5, STORED),
        (2, 0x30, Step::Load, 13, 5, STORED),
    ] {
        let address = at::<F>(register, page, 1);
        let answer = step.by_effective(&mut unit, storage, address, Width::Byte);
        assert_eq!(rt; answer_number(&answer), number);
        only_marked(rt, &unit, pages, &[(real_page, mark)]);
    }
    unit.clear_page_mark(5)?;
    refuses(
        rt,
        &mut unit,
        storage,
        &[(2, 0x30, STORE, Refusal::ProtectionRefused, NOTHING)],
    );
    only_marked(rt, &unit, pages, &[]);
    let loaded = unit.load(storage, at::<F>(3, 0x30, 1), Width::Byte);
    assert_eq!(rt; loaded, accepted(0xff, NOTHING));
    only_marked(rt, &unit, pages, &[(5, LOADED)]);
    let stored = unit.store(storage, at::<F>(3, 0x54, 0), Width::Word, 1);
    assert_eq!(rt; stored, accepted(0, first_is(7)));
    only_marked(rt, &unit, pages, &[(5, LOADED), (7, STORED)]);
    Ok(())
}

#[test]
fn marks_of_accepted_requests(rt: HostRuntime) -> Result<(), Fail> {
    marks(&rt, Form2K, &mut RamBoard::new(&mut zeros(rt.alloc())?), 32)?;
    marks(&rt, Form4K, &mut RamBoard::new(&mut zeros(rt.alloc())?), 16)
}
