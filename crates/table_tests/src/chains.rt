use crate::support::{
    Walk, anchor_word, answers, bytes_of, link_word, plan_of, put_anchor, put_entry,
    turn_reserved_bits_on, virtual_page, word_number,
};
use boards::ram::RamBoard;
use paging::form::{Form2K, Form4K, PageForm};
use paging::plan::SettledPlan;
use std::alloc::{AllocError, Global};
use std::process::Abort;
use std::test::Fail;
use storage::words::{ReadStorage, Storage};

// A table of 32 entries, which 2K has with exponent 16 and 4K with 17. Its anchors: the number, whether it is empty, and the
// pointer. All others are empty. A pointer of 31 is the highest that is inside, 32 the lowest outside, 8,191 the highest.
const ANCHORS: [(u16, bool, u16); 11] = [
    (0, false, 12),
    (1, true, 0),
    (2, true, 32),
    (3, false, 32),
    (4, false, 8191),
    (5, false, 31),
    (8, false, 0),
    (9, false, 9),
    (10, false, 10),
    (15, false, 15),
    (31, false, 0),
];

// Its entries: the number, the segment ID and page number, whether it is the last, and the pointer. 0, 31 and 5 are a chain,
// 10 and 11 another. 15 and 16 go round. The lowest five bits of a segment ID, XOR those of the page number, are the anchor:
// of the first three 1 1100 XOR 1 0100, which is 8; of entry 12 1 1111 XOR 1 1111, which is 0. The other page numbers end in
// five zeros, so there the segment ID alone gives 9, 10 and 15.
const ENTRIES: [(u16, u16, u32, bool, u16); 9] = [
    (0, 0xabc, 0x1254, false, 31),
    (31, 0x2bc, 0x1234, false, 5),
    (5, 0xabc, 0x1234, true, 0),
    (9, 0x009, 0x2000, false, 32),
    (10, 0x00a, 0x2000, false, 11),
    (11, 0x00a, 0x4000, false, 8191),
    (12, 0xfff, 0x7fff, true, 8191),
    (15, 0x00f, 0x0000, false, 16),
    (16, 0x80f, 0x0000, false, 15),
];

// A walk: the segment ID and page number, the number of the refusal (0 where the page is found), and the entries that are
// compared.
pub(crate) type Case = (u16, u32, u8, &'static [u16]);

pub(crate) const CASES: [Case; 24] = [
    // found at the first, second and third place
    (0xabc, 0x1254, 0, &[0]),
    (0x2bc, 0x1234, 0, &[0, 31]),
    (0xabc, 0x1234, 0, &[0, 31, 5]),
    // the pointer of an entry that is equal is not looked at, be it 32, 8,191 or back in a circle
    (0x009, 0x2000, 0, &[9]),
    (0x00a, 0x4000, 0, &[10, 11]),
    (0xfff, 0x7fff, 0, &[12]),
    (0x80f, 0x0000, 0, &[15, 16]),
    // the whole tag is compared: these differ from an entry in the lowest bit of the page number that does not enter the hash,
    // in the highest bit of one of 16 bits and of 17 (which no entry has in 4K), in a bit of the segment ID above the hash,
    // and in two bits that cancel each other out in the hash
    (0xabc, 0x1274, 9, &[0, 31, 5]),
    (0xabc, 0x9234, 9, &[0, 31, 5]),
    (0xabc, 0x1_1234, 9, &[0, 31, 5]),
    (0xa9c, 0x1234, 9, &[0, 31, 5]),
    (0xabd, 0x1235, 9, &[0, 31, 5]),
    // chains from the last anchor to entry 0, and from an anchor to the last entry
    (0x000, 0x001f, 9, &[0, 31, 5]),
    (0x000, 0x0005, 9, &[31, 5]),
    // a last entry is a page fault, though its pointer is outside
    (0xfff, 0xffff, 9, &[12]),
    (0x000, 0x0000, 9, &[12]),
    // an empty anchor is one too, wherever it points; 1 1110 XOR 1 1111 is 1
    (0x000, 0x0001, 9, &[]),
    (0x01e, 0x001f, 9, &[]),
    (0x000, 0x0002, 9, &[]),
    // anchors that point to 32 and to 8,191; 1 1111 XOR 1 1011 is 4
    (0x000, 0x0003, 11, &[]),
    (0x000, 0x0004, 11, &[]),
    (0xfff, 0xfffb, 11, &[]),
    // entries that do, at the first and at the second place
    (0x000, 0x0009, 11, &[9]),
    (0x000, 0x000a, 11, &[10, 11]),
];

// The tests here begin with the same word at every anchor of a table of 32 entries.
fn put_anchors<S: Storage>(
    rt: &impl Abort,
    storage: &mut S,
    start: u32,
    word1: u32,
) -> Result<(), Fail> {
    for anchor in 0..32 {
        put_anchor(rt, storage, start, anchor, word1)?;
    }
    Ok(())
}

// Writes the table from a word of a storage on.
pub(crate) fn put_table<F: PageForm, S: Storage>(
    rt: &impl Abort,
    storage: &mut S,
    start: u32,
) -> Result<(), Fail> {
    put_anchors(rt, storage, start, anchor_word(true, 0))?;
    for (anchor, empty, first) in ANCHORS {
        put_anchor(rt, storage, start, anchor, anchor_word(empty, first))?;
    }
    for (entry, segment, page, last, next) in ENTRIES {
        put_entry::<F, S>(
            rt,
            storage,
            start,
            entry,
            virtual_page(segment, page),
            link_word(last, next),
        )?;
    }
    Ok(())
}

// A walk of the list. The long-stop bit makes no difference to it.
pub(crate) fn listed(case: Case, long_stop: bool) -> Walk<'static> {
    let (segment, page, number, path) = case;
    Walk {
        tag: virtual_page(segment, page),
        long_stop,
        number,
        path,
    }
}

// Entries 15 and 16 in turn, as many as are compared at the most with the long-stop bit on.
pub(crate) fn turns(heap: Global) -> Result<Vec<u16>, AllocError> {
    [15, 16].iter().copied().cycle().take(127).collect(heap)
}

// The walk that goes round entries 15 and 16, with the long-stop bit off and on. With the bit off it compares 32, as many as
// the table has (12), and with it on 127 (10).
pub(crate) fn rounds<'a>(rt: &impl Abort, turns: &'a [u16]) -> [Walk<'a>; 2] {
    assert!(rt; turns.len() == 127);
    let off = Walk {
        tag: virtual_page(0, 15),
        long_stop: false,
        number: 12,
        path: &turns[0..32],
    };
    let on = Walk {
        long_stop: true,
        number: 10,
        path: turns,
        ..off
    };
    [off, on]
}

fn walks<F: PageForm, S: ReadStorage>(
    rt: &impl Abort,
    heap: Global,
    storage: &S,
    plan: &SettledPlan<F>,
    setting: &str,
) -> Result<(), Fail> {
    for case in CASES {
        for long_stop in [false, true] {
            answers(rt, heap, storage, plan, listed(case, long_stop), setting)?;
        }
    }
    for walk in rounds(rt, &turns(heap)?) {
        answers(rt, heap, storage, plan, walk, setting)?;
    }
    Ok(())
}

// Searches the table at a base, first with every reserved bit off and then with every one on.
fn at_base<F: PageForm>(
    rt: &impl Abort,
    heap: Global,
    plan: &SettledPlan<F>,
    start: u32,
) -> Result<(), Fail> {
    let mut bytes = bytes_of(heap, plan)?;
    let mut board = RamBoard::new(&mut bytes);
    put_table::<F, RamBoard>(rt, &mut board, start)?;
    walks(rt, heap, &board, plan, "reserved bits are off")?;
    turn_reserved_bits_on::<F, RamBoard>(rt, &mut board, start, 32)?;
    walks(rt, heap, &board, plan, "reserved bits are on")
}

// Every walk comes to the same at each base, be it the lowest or the highest, whatever the reserved bits are. The table of
// 32 entries starts at word base * 128: 127 * 128 is 16,256 and 255 * 128 is 32,640.
#[test]
fn chains_at_each_base(rt: HostRuntime) -> Result<(), Fail> {
    at_base(&rt, rt.alloc(), &plan_of(Form2K, 16, 0)?, 0)?;
    at_base(&rt, rt.alloc(), &plan_of(Form2K, 16, 1)?, 128)?;
    at_base(&rt, rt.alloc(), &plan_of(Form2K, 16, 127)?, 16256)?;
    at_base(&rt, rt.alloc(), &plan_of(Form4K, 17, 0)?, 0)?;
    at_base(&rt, rt.alloc(), &plan_of(Form4K, 17, 1)?, 128)?;
    at_base(&rt, rt.alloc(), &plan_of(Form4K, 17, 255)?, 32640)
}

// Lets every anchor point to entry 20, which has this word 0 and is the last of its chain, and walks for three virtual
// pages: the number is 0 where the entry holds the page, and else 9.
fn held_in<F: PageForm, S: Storage>(
    rt: &impl Abort,
    heap: Global,
    storage: &mut S,
    plan: &SettledPlan<F>,
    word0: u32,
    cases: [(u16, u32, u8); 3],
) -> Result<(), Fail> {
    put_anchors(rt, storage, 0, anchor_word(false, 20))?;
    for (segment, page, number) in cases {
        let tag = virtual_page(segment, page);
        put_entry::<F, S>(rt, storage, 0, 20, tag, link_word(true, 0))?;
        storage.write(word_number(rt, 0, 20, 0), word0, 15)?;
        let walk = Walk {
            tag,
            long_stop: false,
            number,
            path: &[20],
        };
        answers(rt, heap, storage, plan, walk, "only entry 20")?;
    }
    Ok(())
}

// Segment ID 123 counts 123 * 2^17, which is 2460000. In 2K the page number follows in bits 15 to 31, so that 2468ACE is page
// 8ACE and 2468ACF page 8ACF: bit 31 matters. In 4K it follows in bits 15 to 30, so that both are page 4567, half of 8ACE:
// bit 31 is reserved. The key is 0 in these words, as that of entry 20 is: 20 % 4.
#[test]
fn bit_31_of_word_0(rt: HostRuntime) -> Result<(), Fail> {
    let mut bytes = vec![in rt.alloc(); 0u8; 131_072]?;
    let mut board = RamBoard::new(&mut bytes);
    let plan_2k = plan_of(Form2K, 16, 0)?;
    let plan_4k = plan_of(Form4K, 17, 0)?;
    for (word0, even, odd) in [(0x0246_8ace, 0, 9), (0x0246_8acf, 9, 0)] {
        let in_2k = [
            (0x123, 0x8ace, even),
            (0x123, 0x8acf, odd),
            (0x122, 0x8ace, 9),
        ];
        held_in(&rt, rt.alloc(), &mut board, &plan_2k, word0, in_2k)?;
        let in_4k = [(0x123, 0x4567, 0), (0x123, 0x4566, 9), (0x123, 0x8ace, 9)];
        held_in(&rt, rt.alloc(), &mut board, &plan_4k, word0, in_4k)?;
    }
    Ok(())
}

// The highest tag has bits 3 to 31 on in 2K and bits 3 to 30 in 4K. Without its highest bit a page number of 17 bits is FFFF,
// one of 16 bits 7FFF, and a segment ID 7FF: these are other virtual pages.
#[test]
fn the_highest_tags(rt: HostRuntime) -> Result<(), Fail> {
    let mut bytes = vec![in rt.alloc(); 0u8; 131_072]?;
    let mut board = RamBoard::new(&mut bytes);
    let plan_2k = plan_of(Form2K, 16, 0)?;
    let in_2k = [
        (0xfff, 0x1_ffff, 0),
        (0xfff, 0x0_ffff, 9),
        (0x7ff, 0x1_ffff, 9),
    ];
    held_in(&rt, rt.alloc(), &mut board, &plan_2k, 0x1fff_ffff, in_2k)?;
    let plan_4k = plan_of(Form4K, 17, 0)?;
    let in_4k = [(0xfff, 0xffff, 0), (0xfff, 0x7fff, 9), (0x7ff, 0xffff, 9)];
    held_in(&rt, rt.alloc(), &mut board, &plan_4k, 0x1fff_fffe, in_4k)
}
