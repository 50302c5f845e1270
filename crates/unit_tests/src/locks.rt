use crate::support::{NOTHING, accepted, at, first_is, ordinary, refused, special, unit_of, zeros};
use crate::tables::{is_2k, locked, put_table, small_table};
use boards::ram::RamBoard;
use lanes::width::Width;
use mmu::unit::MemoryUnit;
use page_table::entry::PageEntry;
use paging::form::{Form2K, Form4K, PageForm};
use refusals::refusal::Refusal;
use std::process::Abort;
use std::test::Fail;
use storage::words::Storage;
use unit_state::answers::{answer_number, answer_value};

// The first and the last byte of lines 0, 1, 6, 7, 8, 14 and 15, which have 128 bytes in 2K and 256 in 4K.
const LINES_2K: [(u32, u32); 7] = [
    (0x000, 0x07f),
    (0x080, 0x0ff),
    (0x300, 0x37f),
    (0x380, 0x3ff),
    (0x400, 0x47f),
    (0x700, 0x77f),
    (0x780, 0x7ff),
];

const LINES_4K: [(u32, u32); 7] = [
    (0x000, 0x0ff),
    (0x100, 0x1ff),
    (0x600, 0x6ff),
    (0x700, 0x7ff),
    (0x800, 0x8ff),
    (0xe00, 0xeff),
    (0xf00, 0xfff),
];

// Lock bits of a page, and which of those lines have theirs on. The bit of line n, counted from the left, counts 2^(15 - n):
// line 0 has 8000, line 1 4000, line 7 100, line 14 2 and line 15 1.
const LOCKS: [(u16, [bool; 7]); 10] = [
    (0x0000, [false, false, false, false, false, false, false]),
    (0x8000, [true, false, false, false, false, false, false]),
    (0x4000, [false, true, false, false, false, false, false]),
    (0x0100, [false, false, false, true, false, false, false]),
    (0x0002, [false, false, false, false, false, true, false]),
    (0x0001, [false, false, false, false, false, false, true]),
    (0x7fff, [false, true, true, true, true, true, true]),
    (0xfeff, [true, true, true, false, true, true, true]),
    (0xfffe, [true, true, true, true, true, true, false]),
    (0xffff, [true, true, true, true, true, true, true]),
];

// A unit with transaction ID 5A, and segment 321 in register 4 as a special one. Its K is 1 and the key of the page is 00,
// which would permit nothing in an ordinary segment. The page lies in real page 6.
fn unit_and_table<F: PageForm + Copy, S: Storage>(
    rt: &impl Abort,
    form: F,
    storage: &mut S,
    page: PageEntry,
) -> Result<MemoryUnit<F>, Fail> {
    put_table::<F, S>(rt, storage, small_table::<F>(), &[(6, page)])?;
    let mut unit = unit_of(form, 16, 1)?;
    unit.write_segment(4, special(0x321))?;
    unit.write_transaction(0x5a);
    Ok(unit)
}

// Stores and loads at a place of the page, in each width. What is refused is refused with 14.
fn permits<F: PageForm, S: Storage>(
    rt: &impl Abort,
    unit: &mut MemoryUnit<F>,
    storage: &mut S,
    page: PageEntry,
    place: u32,
    loads: bool,
    stores: bool,
) {
    let PageEntry { write, locks, .. } = page;
    let address = at::<F>(4, 0x77, place);
    for (width, value) in [
        (Width::Byte, 0xa5),
        (Width::Halfword, 0xa5c3),
        (Width::Word, 0xa5c3_96e7),
    ] {
        let stored = unit.store(storage, address, width, value);
        assert_eq!(rt;
            answer_number(&stored),
            if stores { 0 } else { 14 },
            "store: locks {locks}, write bit {write}, place {place}"
        );
        let loaded = unit.load(storage, address, width);
        assert_eq!(rt;
            answer_number(&loaded),
            if loads { 0 } else { 14 },
            "load: locks {locks}, write bit {write}, place {place}"
        );
        if stores || !loads {
            assert_eq!(rt;
                answer_value(&loaded),
                if stores { value } else { 0 },
                "value: locks {locks}, write bit {write}, place {place}"
            );
        }
    }
}

// Write bit and lock bit both on permit loads and stores, one of them only loads, and neither nothing. Each byte of a line
// goes by the line's own lock bit: the last byte of line 0 is next to the first of line 1, that of line 6 to the first of
// line 7, of line 7 to the first of line 8, and of line 14 to the first of line 15.
fn lines<F: PageForm + Copy, S: Storage>(
    rt: &impl Abort,
    form: F,
    storage: &mut S,
    lines: [(u32, u32); 7],
) -> Result<(), Fail> {
    for (locks, lines_on) in LOCKS {
        for write in [false, true] {
            let page = locked(0x321, 0x77, write, 0x5a, locks);
            let mut unit = unit_and_table(rt, form, storage, page)?;
            for ((first, last), lock) in lines.into_iter().zip(lines_on) {
                for place in [first, last] {
                    let loads = write || lock;
                    let stores = write && lock;
                    permits(rt, &mut unit, storage, page, place, loads, stores);
                }
            }
        }
    }
    Ok(())
}

#[test]
fn lock_bits_of_lines(rt: HostRuntime) -> Result<(), Fail> {
    let mut bytes = zeros(rt.alloc())?;
    let mut board = RamBoard::new(&mut bytes);
    lines(&rt, Form2K, &mut board, LINES_2K)?;
    lines(&rt, Form4K, &mut board, LINES_4K)
}

// The transaction IDs of unit and page have to be equal, all eight bits of them. If they are not, nothing is permitted,
// though the write bit and all lock bits are on. The first request compares entry 6, and the others hit it, as the refused
// ones do too.
fn transactions<F: PageForm + Copy, S: Storage>(
    rt: &impl Abort,
    form: F,
    storage: &mut S,
) -> Result<(), Fail> {
    for (of_page, others) in [
        (0x5a, [0x5b, 0xda, 0x00, 0xff]),
        (0x00, [0x01, 0x80, 0x5a, 0xff]),
        (0xff, [0xfe, 0x7f, 0x5a, 0x00]),
    ] {
        let page = locked(0x321, 0x77, true, of_page, 0xffff);
        let mut unit = unit_and_table(rt, form, storage, page)?;
        unit.write_transaction(of_page);
        let address = at::<F>(4, 0x77, 0);
        let stored = unit.store(storage, address, Width::Byte, 0xc9);
        assert_eq!(rt; stored, accepted(0, first_is(6)));
        for other in others {
            unit.write_transaction(other);
            let stored = unit.store(storage, address, Width::Byte, 1);
            assert_eq!(rt; stored, refused(Refusal::LockRefused, NOTHING));
            let loaded = unit.load(storage, address, Width::Byte);
            assert_eq!(rt; loaded, refused(Refusal::LockRefused, NOTHING));
            unit.write_transaction(of_page);
            let loaded = unit.load(storage, address, Width::Byte);
            assert_eq!(rt; loaded, accepted(0xc9, NOTHING), "ID {other}");
        }
    }
    Ok(())
}

// A walk that ends in 14 has its count and its last entry in the answer, and the entry is kept: the next request hits it.
fn refused_after_walk<F: PageForm + Copy, S: Storage>(
    rt: &impl Abort,
    form: F,
    storage: &mut S,
) -> Result<(), Fail> {
    let page = locked(0x321, 0x77, false, 0x5a, 0x8000);
    let mut unit = unit_and_table(rt, form, storage, page)?;
    let address = at::<F>(4, 0x77, 3);
    let stored = unit.store(storage, address, Width::Word, 1);
    assert_eq!(rt; stored, refused(Refusal::LockRefused, first_is(6)));
    let loaded = unit.load(storage, address, Width::Byte);
    assert_eq!(rt; loaded, accepted(0, NOTHING));
    let mut unit = unit_and_table(rt, form, storage, page)?;
    unit.write_transaction(0x5b);
    let loaded = unit.load(storage, address, Width::Byte);
    assert_eq!(rt; loaded, refused(Refusal::LockRefused, first_is(6)));
    unit.write_transaction(0x5a);
    let loaded = unit.load(storage, address, Width::Byte);
    assert_eq!(rt; loaded, accepted(0, NOTHING));
    Ok(())
}

// An ordinary and a special register have one segment ID. The ordinary one, with K 0 and key 00, brings the page into the
// look-aside buffers; the entry has the page's own lock bits all the same. With the write bit on and only the bit of line 0
// on, the special one may then store in line 0 and only load from line 1, by hits; the ordinary one may store there.
fn shared_segment<F: PageForm + Copy, S: Storage>(
    rt: &impl Abort,
    form: F,
    storage: &mut S,
) -> Result<(), Fail> {
    let page = locked(0x321, 0x77, true, 0x5a, 0x8000);
    let mut unit = unit_and_table(rt, form, storage, page)?;
    unit.write_segment(5, ordinary(0x321, false))?;
    let second_line = if is_2k::<F>() { 0x80 } else { 0x100 };
    let loaded = unit.load(storage, at::<F>(5, 0x77, 0), Width::Word);
    assert_eq!(rt; loaded, accepted(0, first_is(6)));
    let stored = unit.store(storage, at::<F>(4, 0x77, 0), Width::Word, 7);
    assert_eq!(rt; stored, accepted(0, NOTHING));
    let stored = unit.store(storage, at::<F>(4, 0x77, second_line), Width::Word, 8);
    assert_eq!(rt; stored, refused(Refusal::LockRefused, NOTHING));
    let loaded = unit.load(storage, at::<F>(4, 0x77, second_line), Width::Word);
    assert_eq!(rt; loaded, accepted(0, NOTHING));
    let stored = unit.store(storage, at::<F>(5, 0x77, second_line), Width::Word, 9);
    assert_eq!(rt; stored, accepted(0, NOTHING));
    let loaded = unit.load(storage, at::<F>(4, 0x77, second_line), Width::Word);
    assert_eq!(rt; loaded, accepted(9, NOTHING));
    Ok(())
}

#[test]
fn an_ordinary_and_a_special_register_with_one_segment_id(rt: HostRuntime) -> Result<(), Fail> {
    shared_segment(&rt, Form2K, &mut RamBoard::new(&mut zeros(rt.alloc())?))?;
    shared_segment(&rt, Form4K, &mut RamBoard::new(&mut zeros(rt.alloc())?))
}

#[test]
fn transaction_ids_of_special_segments(rt: HostRuntime) -> Result<(), Fail> {
    let mut bytes = zeros(rt.alloc())?;
    let mut board = RamBoard::new(&mut bytes);
    refused_after_walk(&rt, Form2K, &mut board)?;
    refused_after_walk(&rt, Form4K, &mut board)?;
    transactions(&rt, Form2K, &mut board)?;
    transactions(&rt, Form4K, &mut board)
}
