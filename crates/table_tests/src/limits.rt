use crate::support::{
    Walk, anchor_word, answers, bytes_of, down_to, link_word, plan_of, put_anchor, put_entry,
    turn_reserved_bits_on, virtual_page,
};
use boards::ram::RamBoard;
use page_table::entry::Tag;
use paging::form::{Form2K, Form4K, PageForm};
use paging::plan::SettledPlan;
use std::alloc::Global;
use std::process::Abort;
use std::test::Fail;
use storage::words::Storage;

// The virtual page of an entry in the chains below: segment 800 and page entry * 128 + 5. Each has hash 5, since 800 hex and
// 128 are multiples of every P here: 16, 32 and 128.
fn in_chain(entry: u16) -> Tag {
    virtual_page(0x800, u32::from(entry) << 7 | 5)
}

// Lets anchor 5 point to the highest entry, and each entry to the one below, so that the n-th of the chain is entry P - n.
// Entry 0, the P-th, is the last.
fn put_chain<F: PageForm, S: Storage>(
    rt: &impl Abort,
    storage: &mut S,
    pages: u16,
) -> Result<(), Fail> {
    assert!(rt; pages > 0);
    put_anchor(rt, storage, 0, 5, anchor_word(false, pages - 1))?;
    for entry in 1..pages {
        let link = link_word(false, entry - 1);
        put_entry::<F, S>(rt, storage, 0, entry, in_chain(entry), link)?;
    }
    put_entry::<F, S>(rt, storage, 0, 0, in_chain(0), link_word(true, 0))
}

// With the long-stop bit off as many entries are compared as the table has. The P-th is found where it is equal; else it is
// a page fault (9) where it is the last, and an endless chain (12) where it is not, whatever its pointer is.
fn whole_table<F: PageForm>(
    rt: &impl Abort,
    heap: Global,
    plan: &SettledPlan<F>,
    pages: u16,
) -> Result<(), Fail> {
    let mut bytes = bytes_of(heap, plan)?;
    let mut board = RamBoard::new(&mut bytes);
    put_chain::<F, RamBoard>(rt, &mut board, pages)?;
    let path = down_to(heap, pages, 0)?;
    for (last, next, entry, number) in [
        (true, 0, 0, 0),
        (true, 0, pages, 9),
        (true, 8191, pages, 9),
        (false, 8191, 0, 0),
        (false, 8191, pages, 12),
        (false, pages, pages, 12),
        (false, 0, pages, 12),
    ] {
        put_entry::<F, RamBoard>(rt, &mut board, 0, 0, in_chain(0), link_word(last, next))?;
        let walk = Walk {
            tag: in_chain(entry),
            long_stop: false,
            number,
            path: &path,
        };
        let setting = format!(in heap; "{pages} pages, last {last}, pointer {next}")?;
        answers(rt, heap, &board, plan, walk, &setting)?;
    }
    Ok(())
}

// P is 32 and 128 in 2K with exponents 16 and 18, and 16 and 128 in 4K with exponents 16 and 19.
#[test]
fn chains_of_the_whole_table(rt: HostRuntime) -> Result<(), Fail> {
    whole_table(&rt, rt.alloc(), &plan_of(Form2K, 16, 0)?, 32)?;
    whole_table(&rt, rt.alloc(), &plan_of(Form2K, 18, 0)?, 128)?;
    whole_table(&rt, rt.alloc(), &plan_of(Form4K, 16, 0)?, 16)?;
    whole_table(&rt, rt.alloc(), &plan_of(Form4K, 19, 0)?, 128)
}

// Chains of up to 128 entries: an entry that is written anew, with its last flag and its pointer; the entry whose virtual page
// is asked for, where 128 is that of none; the number of the refusal (0 where the page is found) and the lowest entry that is
// compared, with the long-stop bit on; and both with it off. The 126th of the chain is entry 2, the 127th entry 1 and the
// 128th entry 0.
const LONG: [(u16, (bool, u16), u16, (u8, u16), (u8, u16)); 11] = [
    // found at the 126th and the 127th place; the 128th is only compared with the bit off
    (1, (false, 0), 2, (0, 2), (0, 2)),
    (1, (false, 0), 1, (0, 1), (0, 1)),
    (1, (false, 0), 0, (10, 1), (0, 0)),
    (1, (false, 0), 128, (10, 1), (9, 0)),
    // a page fault where the 127th is the last
    (1, (true, 0), 0, (9, 1), (9, 1)),
    (1, (true, 8191), 0, (9, 1), (9, 1)),
    // its pointer is not looked at with the bit on, and refused with 11 with it off
    (1, (false, 128), 0, (10, 1), (11, 1)),
    (1, (false, 8191), 0, (10, 1), (11, 1)),
    // a loop of all 128
    (0, (false, 127), 128, (10, 1), (12, 0)),
    // before the 127th the bit has no effect
    (2, (true, 1), 0, (9, 2), (9, 2)),
    (2, (false, 128), 0, (11, 2), (11, 2)),
];

// Writes the chain anew for each case, and walks it with every reserved bit off and then on.
fn long_chains<F: PageForm>(
    rt: &impl Abort,
    heap: Global,
    plan: &SettledPlan<F>,
) -> Result<(), Fail> {
    let mut bytes = bytes_of(heap, plan)?;
    let mut board = RamBoard::new(&mut bytes);
    for (anew, (last, next), entry, (number_on, lowest_on), (number_off, lowest_off)) in LONG {
        put_chain::<F, RamBoard>(rt, &mut board, 128)?;
        let link = link_word(last, next);
        put_entry::<F, RamBoard>(rt, &mut board, 0, anew, in_chain(anew), link)?;
        let path_on = down_to(heap, 128, lowest_on)?;
        let path_off = down_to(heap, 128, lowest_off)?;
        let on = Walk {
            tag: in_chain(entry),
            long_stop: true,
            number: number_on,
            path: &path_on,
        };
        let off = Walk {
            long_stop: false,
            number: number_off,
            path: &path_off,
            ..on
        };
        for walk in [on, off] {
            answers(rt, heap, &board, plan, walk, "reserved bits are off")?;
        }
        turn_reserved_bits_on::<F, RamBoard>(rt, &mut board, 0, 128)?;
        for walk in [on, off] {
            answers(rt, heap, &board, plan, walk, "reserved bits are on")?;
        }
    }
    Ok(())
}

// P is 128 in 2K with exponent 18 and in 4K with exponent 19.
#[test]
fn chains_of_127_entries_and_more(rt: HostRuntime) -> Result<(), Fail> {
    long_chains(&rt, rt.alloc(), &plan_of(Form2K, 18, 0)?)?;
    long_chains(&rt, rt.alloc(), &plan_of(Form4K, 19, 0)?)
}

// A loop of 127 entries: entry 1 points to entry 127. With the long-stop bit on the walk stops (10) at the 127th, before it comes
// round; with it off at the 128th (12), which is entry 127 again.
fn loop_of_127<F: PageForm>(
    rt: &impl Abort,
    heap: Global,
    plan: &SettledPlan<F>,
) -> Result<(), Fail> {
    let mut bytes = bytes_of(heap, plan)?;
    let mut board = RamBoard::new(&mut bytes);
    put_chain::<F, RamBoard>(rt, &mut board, 128)?;
    put_entry::<F, RamBoard>(rt, &mut board, 0, 1, in_chain(1), link_word(false, 127))?;
    let once = down_to(heap, 128, 1)?;
    let mut again = down_to(heap, 128, 1)?;
    again.push(127)?;
    for (long_stop, number, path) in [(true, 10, once.as_slice()), (false, 12, again.as_slice())] {
        let walk = Walk {
            tag: in_chain(128),
            long_stop,
            number,
            path,
        };
        answers(rt, heap, &board, plan, walk, "a loop of 127 entries")?;
    }
    Ok(())
}

// P is 128 in 2K with exponent 18 and in 4K with exponent 19.
#[test]
fn loops_of_127_entries(rt: HostRuntime) -> Result<(), Fail> {
    loop_of_127(&rt, rt.alloc(), &plan_of(Form2K, 18, 0)?)?;
    loop_of_127(&rt, rt.alloc(), &plan_of(Form4K, 19, 0)?)
}

// An entry that differs and points to itself is compared P times with the long-stop bit off (12), and 127 times with it on
// (10), though the table has fewer entries.
fn round_one_entry<F: PageForm, S: Storage>(
    rt: &impl Abort,
    heap: Global,
    storage: &mut S,
    plan: &SettledPlan<F>,
    pages: usize,
) -> Result<(), Fail> {
    put_anchor(rt, storage, 0, 5, anchor_word(false, 3))?;
    put_entry::<F, S>(rt, storage, 0, 3, in_chain(3), link_word(false, 3))?;
    for (long_stop, entry, number, count) in [
        (false, 4, 12, pages),
        (true, 4, 10, 127),
        (false, 3, 0, 1),
        (true, 3, 0, 1),
    ] {
        let path = vec![in heap; 3u16; count]?;
        let walk = Walk {
            tag: in_chain(entry),
            long_stop,
            number,
            path: &path,
        };
        let setting = "an entry that points to itself";
        answers(rt, heap, storage, plan, walk, setting)?;
    }
    Ok(())
}

// P is 32 in 2K with exponent 16, and 16 in 4K.
#[test]
fn an_entry_that_points_to_itself(rt: HostRuntime) -> Result<(), Fail> {
    let heap = rt.alloc();
    let mut bytes = vec![in heap; 0u8; 65536]?;
    let mut board = RamBoard::new(&mut bytes);
    round_one_entry(&rt, heap, &mut board, &plan_of(Form2K, 16, 0)?, 32)?;
    round_one_entry(&rt, heap, &mut board, &plan_of(Form4K, 16, 0)?, 16)
}
