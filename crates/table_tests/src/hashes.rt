use crate::support::{
    Walk, anchor_word, comes_to, link_word, plan_of, put_anchor, put_entry, virtual_page,
};
use boards::ram::RamBoard;
use page_table::finding::find_page;
use paging::form::{Form2K, Form4K, PageForm};
use paging::plan::SettledPlan;
use std::process::Abort;
use std::test::Fail;
use storage::words::Storage;

// Fills a table so that each anchor points to the entry of its own number, which is the last of its chain and has a virtual
// page that no walk here asks for.
fn anchors_to_themselves<F: PageForm, S: Storage>(
    rt: &impl Abort,
    storage: &mut S,
    start: u32,
    pages: u16,
) -> Result<(), Fail> {
    for i in 0..pages {
        put_anchor(rt, storage, start, i, anchor_word(false, i))?;
        put_entry::<F, S>(
            rt,
            storage,
            start,
            i,
            virtual_page(0x555, 0x3333),
            link_word(true, 0),
        )?;
    }
    Ok(())
}

// A walk starts at anchor (s XOR v) mod P. In such a table it is a page fault (9) after one entry, whose number is that of
// the anchor.
fn start_at<F: PageForm, S: Storage>(
    rt: &impl Abort,
    storage: &mut S,
    plan: &SettledPlan<F>,
    start: u32,
    pages: u16,
    cases: &[(u16, u32, u16)],
) -> Result<(), Fail> {
    anchors_to_themselves::<F, S>(rt, storage, start, pages)?;
    for &(segment, page, anchor) in cases {
        let tag = virtual_page(segment, page);
        for long_stop in [false, true] {
            let walk = Walk {
                tag,
                long_stop,
                number: 9,
                path: &[anchor],
            };
            let outcome = find_page(storage, plan, tag, long_stop);
            comes_to(rt, outcome, walk, "the hash");
        }
    }
    Ok(())
}

// P is 16: the lowest four bits enter. 5 is 0101 and A is 1010, so 5 XOR A is 1111; 15 hex is 1 0101, which ends as 5 does,
// and 0101 XOR 1111 is 1010.
const OF_16: [(u16, u32, u16); 10] = [
    (0x000, 0x0000, 0),
    (0x000, 0x000f, 15),
    (0x00f, 0x0000, 15),
    (0x00f, 0x000f, 0),
    (0x010, 0x0000, 0),
    (0x000, 0x0010, 0),
    (0xfff, 0x0000, 15),
    (0xfff, 0xffff, 0),
    (0x005, 0x000a, 15),
    (0x015, 0x001f, 10),
];

// P is 32: the lowest five bits enter. 15 hex is 1 0101 and A is 0 1010, so 15 XOR A is 1 1111; 1 0101 XOR 1 1111 is 0 1010.
// ABC ends in 1 1100 and 1234 in 1 0100, so they come to 0 1000.
const OF_32: [(u16, u32, u16); 11] = [
    (0x000, 0x0000, 0),
    (0x000, 0x001f, 31),
    (0x01f, 0x0000, 31),
    (0x01f, 0x001f, 0),
    (0x020, 0x0000, 0),
    (0x000, 0x0020, 0),
    (0xfff, 0x0000, 31),
    (0xfff, 0xffff, 0),
    (0x015, 0x000a, 31),
    (0x015, 0x001f, 10),
    (0xabc, 0x1234, 8),
];

// P is 8,192: the lowest 13 bits of the page number enter, and all 12 of the segment ID. FFF XOR 1FFF is 1000, and ABC XOR
// 1234 is 1888: 4,096 and 6,280.
const OF_8192: [(u16, u32, u16); 8] = [
    (0x000, 0x0_0000, 0),
    (0x000, 0x0_1fff, 8191),
    (0x000, 0x0_2000, 0),
    (0x000, 0x1_ffff, 8191),
    (0xfff, 0x0_0000, 4095),
    (0xfff, 0x0_1fff, 4096),
    (0xfff, 0x1_ffff, 4096),
    (0xabc, 0x0_1234, 6280),
];

// The hash is the same at each base. A table of P entries starts at word base * 4 * P: 127 * 128 is 16,256 and 255 * 64 is
// 16,320.
#[test]
fn hashes_of_small_tables(rt: HostRuntime) -> Result<(), Fail> {
    let mut bytes = vec![in rt.alloc(); 0u8; 65536]?;
    let mut board = RamBoard::new(&mut bytes);
    start_at(&rt, &mut board, &plan_of(Form2K, 16, 0)?, 0, 32, &OF_32)?;
    start_at(
        &rt,
        &mut board,
        &plan_of(Form2K, 16, 127)?,
        16256,
        32,
        &OF_32,
    )?;
    start_at(&rt, &mut board, &plan_of(Form4K, 16, 0)?, 0, 16, &OF_16)?;
    start_at(
        &rt,
        &mut board,
        &plan_of(Form4K, 16, 255)?,
        16320,
        16,
        &OF_16,
    )
}

// (s XOR v) mod 4,096, where page numbers have 16 bits: FFF XOR 0FFF is 0, and ABC XOR 1234 is 1888, which is 888 in the lowest
// twelve bits (hexadecimal): 2,184.
const OF_4096: [(u16, u32, u16); 6] = [
    (0x000, 0x0fff, 4095),
    (0x000, 0x1000, 0),
    (0x000, 0xffff, 4095),
    (0xfff, 0x0000, 4095),
    (0xfff, 0x0fff, 0),
    (0xabc, 0x1234, 2184),
];

// In 4K the longest table has 4,096 entries, and is the last 65,536 bytes of 16 MiB: it starts at word 255 * 4 * 4,096, which is
// 4,177,920.
#[test]
fn the_longest_table_of_pages_of_4_kib(rt: HostRuntime) -> Result<(), Fail> {
    let mut bytes = vec![in rt.alloc(); 0u8; 16_777_216]?;
    let mut board = RamBoard::new(&mut bytes);
    let plan = plan_of(Form4K, 24, 255)?;
    start_at(&rt, &mut board, &plan, 4_177_920, 4096, &OF_4096)
}

// The longest table is the last 131,072 bytes of 16 MiB: it starts at word 127 * 4 * 8,192, which is 4,161,536. Then its last
// anchor points to its last entry, and that to itself. It holds page 1000 of segment FFF: FFF XOR 1000 is 1FFF, which is
// 8,191, as 0 XOR 1FFF is. A walk that differs goes round: 8,192 entries are compared with the long-stop bit off (12), and
// 127 with it on (10).
#[test]
fn the_longest_table(rt: HostRuntime) -> Result<(), Fail> {
    let mut bytes = vec![in rt.alloc(); 0u8; 16_777_216]?;
    let mut board = RamBoard::new(&mut bytes);
    let plan = plan_of(Form2K, 24, 127)?;
    start_at(&rt, &mut board, &plan, 4_161_536, 8192, &OF_8192)?;
    let held = virtual_page(0xfff, 0x0_1000);
    put_entry::<Form2K, RamBoard>(
        &rt,
        &mut board,
        4_161_536,
        8191,
        held,
        link_word(false, 8191),
    )?;
    let absent = virtual_page(0, 0x0_1fff);
    for (tag, long_stop, number, count) in [
        (absent, false, 12, 8192),
        (absent, true, 10, 127),
        (held, false, 0, 1),
        (held, true, 0, 1),
    ] {
        let path = vec![in rt.alloc(); 8191u16; count]?;
        let walk = Walk {
            tag,
            long_stop,
            number,
            path: &path,
        };
        let outcome = find_page(&board, &plan, tag, long_stop);
        comes_to(&rt, outcome, walk, "the longest table");
    }
    Ok(())
}
