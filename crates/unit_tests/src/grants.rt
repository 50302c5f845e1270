use crate::support::{ABSENT, barred, ordinary, special, unit_of};
use crate::tables::{is_2k, keyed, locked, put_anchor, put_table, small_table};
use boards::ram::RamBoard;
use mmu::unit::MemoryUnit;
use paging::form::{Form2K, Form4K, PageForm};
use protection::access_type::AccessType;
use protection::register::SegmentRegister;
use std::process::Abort;
use std::test::Fail;
use storage::words::{ReadStorage, Storage};

// A word, and whether loads and stores may reach it.
type Reached = (u32, bool, bool);

// Real page n starts at word 512 * n in 2K and 1,024 * n in 4K. The table has 32 entries from word 128 on in 2K and 16 from
// word 64 on in 4K, and lies in real page 0.
fn reaches<F: PageForm, S: ReadStorage>(
    rt: &impl Abort,
    unit: &MemoryUnit<F>,
    storage: &S,
    words: &[Reached],
    case: &str,
) {
    for (word, loads, stores) in words {
        let granted = unit.grants(storage, AccessType::Load, *word);
        assert_eq!(rt; granted, *loads, "{case}: load of word {word}");
        let granted = unit.grants(storage, AccessType::Store, *word);
        assert_eq!(rt; granted, *stores, "{case}: store to word {word}");
    }
}

// Real page 0 holds page 54 of segment 123. Key 10 permits loads and stores, and key 11 only loads, whatever K is.
fn mapped_table<F: PageForm + Copy, S: Storage>(
    rt: &impl Abort,
    form: F,
    storage: &mut S,
    first: u32,
    last: u32,
) -> Result<(), Fail> {
    let table = small_table::<F>();
    let mut unit = unit_of(form, 16, 1)?;
    put_table::<F, S>(rt, storage, table, &[(0, keyed(0x123, 0x54, 2))])?;
    assert!(rt; unit.table_is_closed(storage), "all registers are absent");
    unit.write_segment(2, ordinary(0x123, false))?;
    let words = [(first, true, true), (last, true, true)];
    reaches(rt, &unit, storage, &words, "key 10");
    assert!(rt; !unit.table_is_closed(storage), "key 10");
    put_table::<F, S>(rt, storage, table, &[(0, keyed(0x123, 0x54, 3))])?;
    let words = [(first, true, false), (last, true, false)];
    reaches(rt, &unit, storage, &words, "key 11");
    assert!(rt; unit.table_is_closed(storage), "key 11");
    put_table::<F, S>(rt, storage, table, &[(4, keyed(0x123, 0x54, 2))])?;
    assert!(rt; unit.table_is_closed(storage), "another page");
    Ok(())
}

#[test]
fn a_table_in_a_page(rt: HostRuntime) -> Result<(), Fail> {
    let mut bytes = vec![in rt.alloc(); 0u8; 65536]?;
    mapped_table(&rt, Form2K, &mut RamBoard::new(&mut bytes), 128, 255)?;
    let mut bytes = vec![in rt.alloc(); 0u8; 65536]?;
    mapped_table(&rt, Form4K, &mut RamBoard::new(&mut bytes), 64, 127)
}

// Real page 0 holds page 77 of segment 321, which is special. With the write bit on, stores are permitted in the lines whose
// lock bit is on; that of line n counts 2^(15 - n). Lines have 32 words in 2K and 64 in 4K, so the table is lines 4 to 7 in 2K
// and line 1 in 4K.
fn locked_table<F: PageForm + Copy, S: Storage>(
    rt: &impl Abort,
    form: F,
    storage: &mut S,
    cases: &[(u16, bool)],
) -> Result<(), Fail> {
    let mut unit = unit_of(form, 16, 1)?;
    unit.write_segment(4, special(0x321))?;
    unit.write_transaction(0x5a);
    for (locks, closed) in cases {
        let page = locked(0x321, 0x77, true, 0x5a, *locks);
        put_table::<F, S>(rt, storage, small_table::<F>(), &[(0, page)])?;
        assert_eq!(rt; unit.table_is_closed(storage), *closed, "locks {locks}");
    }
    Ok(())
}

#[test]
fn a_table_in_lines_of_a_page(rt: HostRuntime) -> Result<(), Fail> {
    let lines_3_4_7_8 = [
        (0x1000, true),
        (0x0800, false),
        (0x0100, false),
        (0x0080, true),
    ];
    let mut bytes = vec![in rt.alloc(); 0u8; 65536]?;
    locked_table(&rt, Form2K, &mut RamBoard::new(&mut bytes), &lines_3_4_7_8)?;
    let lines_0_1_2 = [(0x8000, true), (0x4000, false), (0x2000, true)];
    let mut bytes = vec![in rt.alloc(); 0u8; 65536]?;
    locked_table(&rt, Form4K, &mut RamBoard::new(&mut bytes), &lines_0_1_2)
}

// Real page 4 holds page 54 of segment 123, with key 10, which permits all. So a word of it is granted if a register holds 123,
// is present and not barred, whichever it is; the words beside the page are not.
fn registers<F: PageForm + Copy, S: Storage>(
    rt: &impl Abort,
    form: F,
    storage: &mut S,
    inside: [u32; 2],
    beside: [u32; 2],
) -> Result<(), Fail> {
    let table = small_table::<F>();
    put_table::<F, S>(rt, storage, table, &[(4, keyed(0x123, 0x54, 2))])?;
    let absent = SegmentRegister {
        segment: 0x123,
        ..ABSENT
    };
    for (register, granted) in [
        (ABSENT, false),
        (absent, false),
        (barred(0x123), false),
        (ordinary(0x122, false), false),
        (ordinary(0x123, false), true),
        (ordinary(0x123, true), true),
    ] {
        for number in [0, 7, 15] {
            let mut unit = unit_of(form, 16, 1)?;
            unit.write_segment(5, barred(0x123))?;
            unit.write_segment(number, register)?;
            let words = [
                (inside[0], granted, granted),
                (inside[1], granted, granted),
                (beside[0], false, false),
                (beside[1], false, false),
            ];
            reaches(rt, &unit, storage, &words, "registers");
        }
    }
    Ok(())
}

#[test]
fn registers_that_grant(rt: HostRuntime) -> Result<(), Fail> {
    let mut bytes = vec![in rt.alloc(); 0u8; 65536]?;
    let mut board = RamBoard::new(&mut bytes);
    registers(&rt, Form2K, &mut board, [2048, 2559], [2047, 2560])?;
    let mut bytes = vec![in rt.alloc(); 0u8; 65536]?;
    let mut board = RamBoard::new(&mut bytes);
    registers(&rt, Form4K, &mut board, [4096, 5119], [4095, 5120])
}

// Entries 4 and 6 both say page 54 of segment 123, and 6 stands in front in their chain: no search finds 4. Entry 5 says page
// 55, but anchor 123 XOR 55 = 176 (hexadecimal), which is 22 with 32 entries and 6 with 16, is empty. The last real page,
// which entry `last` is for, holds page 56, and ends with the last word of the storage. There is no word 16,384; and four
// times 2^30 is 2^32, which 32 bits do not hold.
fn unreached<F: PageForm + Copy, S: Storage>(
    rt: &impl Abort,
    form: F,
    storage: &mut S,
    last: u16,
    first_words: [u32; 3],
) -> Result<(), Fail> {
    let table = small_table::<F>();
    let pages = [
        (4, keyed(0x123, 0x54, 2)),
        (5, keyed(0x123, 0x55, 2)),
        (6, keyed(0x123, 0x54, 2)),
        (last, keyed(0x123, 0x56, 2)),
    ];
    put_table::<F, S>(rt, storage, table, &pages)?;
    let mut unit = unit_of(form, 16, 1)?;
    unit.write_segment(2, ordinary(0x123, false))?;
    let [page_4, page_5, page_6] = first_words;
    let words = [
        (page_4, false, false),
        (page_5, true, true),
        (page_6, true, true),
        (16_383, true, true),
        (16_384, false, false),
        (1 << 30, false, false),
        (u32::MAX, false, false),
    ];
    reaches(rt, &unit, storage, &words, "chains");
    let anchor = if is_2k::<F>() { 22 } else { 6 };
    put_anchor(rt, storage, table, anchor, true, 5)?;
    let words = [(page_5, false, false), (page_6, true, true)];
    reaches(rt, &unit, storage, &words, "an empty anchor");
    Ok(())
}

#[test]
fn entries_that_no_search_finds(rt: HostRuntime) -> Result<(), Fail> {
    let mut bytes = vec![in rt.alloc(); 0u8; 65536]?;
    let mut board = RamBoard::new(&mut bytes);
    unreached(&rt, Form2K, &mut board, 31, [2048, 2560, 3072])?;
    let mut bytes = vec![in rt.alloc(); 0u8; 65536]?;
    let mut board = RamBoard::new(&mut bytes);
    unreached(&rt, Form4K, &mut board, 15, [4096, 5120, 6144])
}

// Real page 6 holds page 77 of segment 321, which is special, and of its lock bits that of line 1 is on. With the write bit on
// line 1 may be stored to, and the page loaded from; with the write bit off line 1 may be loaded from. Under another
// transaction ID nothing is granted.
fn lines<F: PageForm + Copy, S: Storage>(
    rt: &impl Abort,
    form: F,
    storage: &mut S,
    line_1: [u32; 2],
    beside: [u32; 2],
) -> Result<(), Fail> {
    let mut unit = unit_of(form, 16, 1)?;
    unit.write_segment(4, special(0x321))?;
    for (write, transaction, of_line, of_others) in [
        (true, 0x5a, (true, true), (true, false)),
        (false, 0x5a, (true, false), (false, false)),
        (true, 0x5b, (false, false), (false, false)),
    ] {
        let page = locked(0x321, 0x77, write, 0x5a, 0x4000);
        put_table::<F, S>(rt, storage, small_table::<F>(), &[(6, page)])?;
        unit.write_transaction(transaction);
        let words = [
            (beside[0], of_others.0, of_others.1),
            (line_1[0], of_line.0, of_line.1),
            (line_1[1], of_line.0, of_line.1),
            (beside[1], of_others.0, of_others.1),
        ];
        reaches(rt, &unit, storage, &words, "lines");
    }
    Ok(())
}

#[test]
fn lines_of_a_special_segment(rt: HostRuntime) -> Result<(), Fail> {
    let mut bytes = vec![in rt.alloc(); 0u8; 65536]?;
    let mut board = RamBoard::new(&mut bytes);
    lines(&rt, Form2K, &mut board, [3104, 3135], [3103, 3136])?;
    let mut bytes = vec![in rt.alloc(); 0u8; 65536]?;
    let mut board = RamBoard::new(&mut bytes);
    lines(&rt, Form4K, &mut board, [6208, 6271], [6207, 6272])
}

// A storage of half the plan's size, or of twice, has the table too, and real page 0 holds page 54 of segment 123, with key 10.
fn other_size<F: PageForm + Copy, S: Storage>(
    rt: &impl Abort,
    form: F,
    storage: &mut S,
) -> Result<(), Fail> {
    let table = small_table::<F>();
    put_table::<F, S>(rt, storage, table, &[(0, keyed(0x123, 0x54, 2))])?;
    let mut unit = unit_of(form, 16, 1)?;
    unit.write_segment(2, ordinary(0x123, false))?;
    let words = [(0, false, false), (128, false, false)];
    reaches(rt, &unit, storage, &words, "another size");
    assert!(rt; unit.table_is_closed(storage), "another size");
    Ok(())
}

#[test]
fn storages_of_another_size(rt: HostRuntime) -> Result<(), Fail> {
    for size in [32768, 131_072] {
        let mut bytes = vec![in rt.alloc(); 0u8; size]?;
        other_size(&rt, Form2K, &mut RamBoard::new(&mut bytes))?;
        let mut bytes = vec![in rt.alloc(); 0u8; size]?;
        other_size(&rt, Form4K, &mut RamBoard::new(&mut bytes))?;
    }
    Ok(())
}
