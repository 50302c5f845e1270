use crate::support::{
    NOTHING, STORED, accepted, at, first_is, only_marked, ordinary, unit_of, up_to, zeros,
};
use crate::tables::{Table, first_word, keyed, put_table, small_table};
use boards::ram::RamBoard;
use lanes::width::Width;
use mmu::unit::MemoryUnit;
use paging::address::EffectiveAddress;
use paging::form::{Form2K, Form4K, PageForm};
use std::alloc::Global;
use std::process::Abort;
use std::test::Fail;
use storage::words::{ReadStorage, Storage};

// A unit that has segment 7 in register 5. Its pages 20 and 21, which are neighbours, lie in real pages 9 and 3. The anchors,
// 7 XOR 20 = 27 and 7 XOR 21 = 26 (hexadecimal), are 7 and 6 with 32 entries and with 16. Both pages are loaded from once, so
// that later requests hit them.
fn unit_and_table<F: PageForm + Copy, S: Storage>(
    rt: &impl Abort,
    form: F,
    storage: &mut S,
) -> Result<MemoryUnit<F>, Fail> {
    let pages = [(9, keyed(7, 0x20, 2)), (3, keyed(7, 0x21, 2))];
    put_table::<F, S>(rt, storage, small_table::<F>(), &pages)?;
    let mut unit = unit_of(form, 16, 1)?;
    unit.write_segment(5, ordinary(7, false))?;
    for (page, entry) in [(0x20, 9), (0x21, 3)] {
        let answer = unit.load(storage, at::<F>(5, page, 8), Width::Byte);
        assert_eq!(rt; answer, accepted(0, first_is(entry)));
    }
    Ok(unit)
}

// The bytes 81 B2 C3 D4 end page 20, and E5 F6 87 98 begin page 21. An effective address one above that of the last byte of
// page 20 is that of the first byte of page 21. At each of the eight bytes: the byte, the halfword and the word that it lies
// in.
const UNITS: [(u32, u32, u32, u32); 8] = [
    (0x20, 0x81, 0x81b2, 0x81b2_c3d4),
    (0x20, 0xb2, 0x81b2, 0x81b2_c3d4),
    (0x20, 0xc3, 0xc3d4, 0x81b2_c3d4),
    (0x20, 0xd4, 0xc3d4, 0x81b2_c3d4),
    (0x21, 0xe5, 0xe5f6, 0xe5f6_8798),
    (0x21, 0xf6, 0xe5f6, 0xe5f6_8798),
    (0x21, 0x87, 0x8798, 0xe5f6_8798),
    (0x21, 0x98, 0x8798, 0xe5f6_8798),
];

// The numbers of the last word of real page 9, which page 20 ends with, of the first word of real page 3, which page 21
// begins with, and of what stands behind the one and before the other in real storage: the first word of real page 10 and the
// last of real page 2.
fn words_at_end<F: PageForm>(last: u32) -> [u32; 4] {
    [
        first_word::<F>(9) | last,
        first_word::<F>(3),
        first_word::<F>(10),
        first_word::<F>(2) | last,
    ]
}

// Loads from each of the eight addresses, of the last word of page 20 and the first of page 21.
fn loads<F: PageForm, S: Storage>(
    rt: &impl Abort,
    unit: &mut MemoryUnit<F>,
    storage: &mut S,
    words: [u32; 4],
    first_address: u32,
) -> Result<(), Fail> {
    for (n, word) in words.into_iter().zip([0x81b2_c3d4, 0xe5f6_8798, 1, 1]) {
        storage.write(n, word, 15)?;
    }
    let addresses = first_address..0xffff_ffff;
    for (number, (page, byte, halfword, word)) in addresses.zip(UNITS) {
        for (width, value) in [
            (Width::Byte, byte),
            (Width::Halfword, halfword),
            (Width::Word, word),
        ] {
            let answer = unit.load(storage, EffectiveAddress { number }, width);
            assert_eq!(rt;
                answer,
                accepted(value, NOTHING),
                "address {number}, page {page}"
            );
        }
    }
    Ok(())
}

// A store at each byte, and the words that it leaves of zeros at the end of page 20 and at the start of page 21.
const STORES: [(u32, [u32; 3]); 8] = [
    (0x20, [0xee00_0000, 0xbeef_0000, 0xcafe_f00d]),
    (0x20, [0x00ee_0000, 0xbeef_0000, 0xcafe_f00d]),
    (0x20, [0x0000_ee00, 0x0000_beef, 0xcafe_f00d]),
    (0x20, [0x0000_00ee, 0x0000_beef, 0xcafe_f00d]),
    (0x21, [0xee00_0000, 0xbeef_0000, 0xcafe_f00d]),
    (0x21, [0x00ee_0000, 0xbeef_0000, 0xcafe_f00d]),
    (0x21, [0x0000_ee00, 0x0000_beef, 0xcafe_f00d]),
    (0x21, [0x0000_00ee, 0x0000_beef, 0xcafe_f00d]),
];

const VALUES: [(Width, u32); 3] = [
    (Width::Byte, 0xee),
    (Width::Halfword, 0xbeef),
    (Width::Word, 0xcafe_f00d),
];

// Stores at one address over zeros, in each width: only one word changes, at the end of page 20 or at the start of page 21.
fn stores_at<F: PageForm, S: Storage>(
    rt: &impl Abort,
    unit: &mut MemoryUnit<F>,
    storage: &mut S,
    address: EffectiveAddress,
    words: [u32; 4],
    left: (u32, [u32; 3]),
) -> Result<(), Fail> {
    let number = address.number;
    let (page, left) = left;
    for ((width, value), word) in VALUES.into_iter().zip(left) {
        for n in words {
            storage.write(n, 0, 15)?;
        }
        let answer = unit.store(storage, address, width, value);
        assert_eq!(rt; answer, accepted(0, NOTHING), "address {number}");
        let (ends, begins) = if page == 0x20 { (word, 0) } else { (0, word) };
        for (n, expected) in words.into_iter().zip([ends, begins, 0, 0]) {
            assert_eq!(rt; storage.read(n), Ok(expected), "word {n}, address {number}");
        }
    }
    Ok(())
}

// A page has 512 words in 2K, so that the last has number 511, and 1,024 in 4K.
fn widths<F: PageForm + Copy, S: Storage>(
    rt: &impl Abort,
    form: F,
    storage: &mut S,
    last: u32,
    first_address: u32,
) -> Result<(), Fail> {
    let words = words_at_end::<F>(last);
    let mut unit = unit_and_table(rt, form, storage)?;
    loads(rt, &mut unit, storage, words, first_address)?;
    let mut unit = unit_and_table(rt, form, storage)?;
    let addresses = first_address..0xffff_ffff;
    for (number, left) in addresses.zip(STORES) {
        let address = EffectiveAddress { number };
        stores_at(rt, &mut unit, storage, address, words, left)?;
    }
    Ok(())
}

// Page 21 of 2K begins at offset 21 * 800 = 10800, and of 4K at 21 * 1000 = 21000 (hexadecimal); four bytes before it are
// 107FC and 20FFC. Register 5 is the highest digit.
#[test]
fn widths_at_the_end_of_a_page(rt: HostRuntime) -> Result<(), Fail> {
    let mut bytes = zeros(rt.alloc())?;
    let mut board = RamBoard::new(&mut bytes);
    widths(&rt, Form2K, &mut board, 511, 0x5001_07fc)?;
    let mut bytes = zeros(rt.alloc())?;
    let mut board = RamBoard::new(&mut bytes);
    widths(&rt, Form4K, &mut board, 1023, 0x5002_0ffc)
}

// The lowest effective address is byte 0 of page 0, through register 0. The highest is the last byte of page 1FFFF in 2K and
// FFFF in 4K, through register 15. With segment IDs 0 and FFF both have anchor 0: 0 XOR 0, and the lowest bits of FFF XOR
// 1FFFF and of FFF XOR FFFF. The page put in first, in real page 2, stands behind the other, in real page 1: it is found as
// the second.
fn lowest_and_highest<F: PageForm + Copy, S: Storage>(
    rt: &impl Abort,
    form: F,
    storage: &mut S,
    highest: u32,
    last: u32,
) -> Result<(), Fail> {
    let pages = [(2, keyed(0xfff, highest, 2)), (1, keyed(0, 0, 2))];
    put_table::<F, S>(rt, storage, small_table::<F>(), &pages)?;
    let mut unit = unit_of(form, 16, 1)?;
    unit.write_segment(0, ordinary(0, false))?;
    unit.write_segment(15, ordinary(0xfff, false))?;
    let lowest = EffectiveAddress { number: 0 };
    let stored = unit.store(storage, lowest, Width::Halfword, 0xbeef);
    assert_eq!(rt; stored, accepted(0, first_is(1)));
    assert_eq!(rt; storage.read(first_word::<F>(1)), Ok(0xbeef_0000));
    let highest = EffectiveAddress {
        number: 0xffff_ffff,
    };
    let stored = unit.store(storage, highest, Width::Halfword, 0xcafe);
    assert_eq!(rt; stored, accepted(0, up_to(2, 2)));
    assert_eq!(rt; storage.read(first_word::<F>(2) | last), Ok(0x0000_cafe));
    let loaded = unit.load(storage, highest, Width::Byte);
    assert_eq!(rt; loaded, accepted(0xfe, NOTHING));
    Ok(())
}

#[test]
fn the_lowest_and_the_highest_address(rt: HostRuntime) -> Result<(), Fail> {
    let mut bytes = zeros(rt.alloc())?;
    lowest_and_highest(&rt, Form2K, &mut RamBoard::new(&mut bytes), 0x1_ffff, 511)?;
    let mut bytes = zeros(rt.alloc())?;
    lowest_and_highest(&rt, Form4K, &mut RamBoard::new(&mut bytes), 0xffff, 1023)
}

// The last page of a storage of 16 MiB: its table, its number, its first word, the page number that segment ABC has it under, and
// that of segment 0 with the same anchor, which stands in front of it; and the length of a page.
#[derive(Clone, Copy)]
struct LastPage {
    table: Table,
    number: u16,
    first_word: u32,
    page: u32,
    in_front: u32,
    length: u32,
}

fn stores_in_the_last_page<F: PageForm + Copy>(
    rt: &impl Abort,
    heap: Global,
    form: F,
    case: LastPage,
) -> Result<(), Fail> {
    let mut bytes = vec![in heap; 0u8; 16_777_216]?;
    let mut board = RamBoard::new(&mut bytes);
    let pages = [
        (case.number, keyed(0xabc, case.page, 2)),
        (17, keyed(0, case.in_front, 2)),
    ];
    put_table::<F, RamBoard>(rt, &mut board, case.table, &pages)?;
    let mut unit = unit_of(form, 24, 1)?;
    unit.write_segment(10, ordinary(0xabc, true))?;
    let first = at::<F>(10, case.page, 1);
    let last = at::<F>(10, case.page, case.length.wrapping_sub(1));
    let stored = unit.store(&mut board, first, Width::Byte, 0x81);
    assert_eq!(rt; stored, accepted(0, up_to(2, case.number)));
    let stored = unit.store(&mut board, last, Width::Word, 0x9abc_def0);
    assert_eq!(rt; stored, accepted(0, NOTHING));
    assert_eq!(rt; board.read(case.first_word), Ok(0x0081_0000));
    assert_eq!(rt; board.read(4_194_303), Ok(0x9abc_def0));
    let loaded = unit.load(&board, last, Width::Halfword);
    assert_eq!(rt; loaded, accepted(0xdef0, NOTHING));
    only_marked(
        rt,
        &unit,
        case.table.entries,
        &[(u32::from(case.number), STORED)],
    );
    Ok(())
}

// 16 MiB are 8,192 pages of 2,048 bytes. With base 1 the table starts at byte 16 * 8,192, which is word 32,768. Page 1ABCD of
// segment ABC, whose anchor is 1A171 mod 2000 = 171 (hexadecimal), lies in the last real page, which starts at word 8,191 *
// 512 = 4,193,792 and ends with word 4,194,303. Page 1A171 of segment 0 has the same anchor. They are 4,096 pages of 4,096
// bytes: the table starts at byte 16 * 4,096, which is word 16,384; page ABCD of segment ABC has anchor A171 mod 1000 = 171, and
// the last real page starts at word 4,095 * 1,024 = 4,193,280.
#[test]
fn the_last_page_of_the_largest_storage(rt: HostRuntime) -> Result<(), Fail> {
    let of_2k = LastPage {
        table: Table {
            start: 32768,
            entries: 8192,
        },
        number: 8191,
        first_word: 4_193_792,
        page: 0x1_abcd,
        in_front: 0x1_a171,
        length: 2048,
    };
    let of_4k = LastPage {
        table: Table {
            start: 16384,
            entries: 4096,
        },
        number: 4095,
        first_word: 4_193_280,
        page: 0xabcd,
        in_front: 0xa171,
        length: 4096,
    };
    stores_in_the_last_page(&rt, rt.alloc(), Form2K, of_2k)?;
    stores_in_the_last_page(&rt, rt.alloc(), Form4K, of_4k)
}
