use crate::chains::{CASES, listed, put_table, rounds, turns};
use crate::support::{Walk, bytes_of, comes_to, down_to, plan_of};
use boards::ram::RamBoard;
use boards::stacked::Stacked;
use dump_board::board::DumpBoard;
use page_table::pairs::{find_both_pages, find_in_both};
use paging::form::{Form2K, Form4K, PageForm};
use paging::plan::SettledPlan;
use std::alloc::Global;
use std::process::Abort;
use std::test::Fail;
use storage::words::{ReadStorage, Storage};

// Of two walks in one table each comes to what it comes to alone. So no two of them find the same entry, but for two that
// ask for the same virtual page.
fn two_in_one<F: PageForm, S: ReadStorage>(
    rt: &impl Abort,
    storage: &S,
    plan: &SettledPlan<F>,
    one: Walk<'_>,
    other: Walk<'_>,
) {
    let (first, second) = find_both_pages(storage, plan, one.tag, other.tag, one.long_stop);
    comes_to(rt, first, one, "first of two");
    comes_to(rt, second, other, "second of two");
}

fn any_two<F: PageForm>(rt: &impl Abort, heap: Global, plan: &SettledPlan<F>) -> Result<(), Fail> {
    let mut bytes = bytes_of(heap, plan)?;
    let mut board = RamBoard::new(&mut bytes);
    put_table::<F, RamBoard>(rt, &mut board, 0)?;
    for one in CASES {
        for other in CASES {
            for long_stop in [false, true] {
                let (one, other) = (listed(one, long_stop), listed(other, long_stop));
                two_in_one(rt, &board, plan, one, other);
            }
        }
    }
    for walk in rounds(rt, &turns(heap)?) {
        two_in_one(rt, &board, plan, walk, walk);
    }
    Ok(())
}

// A table has 32 entries in 2K with exponent 16 and in 4K with exponent 17.
#[test]
fn two_pages_in_one_table(rt: HostRuntime) -> Result<(), Fail> {
    any_two(&rt, rt.alloc(), &plan_of(Form2K, 16, 0)?)?;
    any_two(&rt, rt.alloc(), &plan_of(Form4K, 17, 0)?)
}

// A walk of two storages with the same table comes to the same in both.
fn one_in_two<F: PageForm, S: ReadStorage, T: ReadStorage>(
    rt: &impl Abort,
    one: &S,
    other: &T,
    plan: &SettledPlan<F>,
    walk: Walk<'_>,
) {
    let (first, second) = find_in_both(one, other, plan, walk.tag, walk.long_stop);
    comes_to(rt, first, walk, "first of two");
    comes_to(rt, second, walk, "second of two");
}

fn in_two<F: PageForm, S: Storage, T: Storage>(
    rt: &impl Abort,
    heap: Global,
    one: &mut S,
    other: &mut T,
    plan: &SettledPlan<F>,
) -> Result<(), Fail> {
    put_table::<F, S>(rt, one, 0)?;
    put_table::<F, T>(rt, other, 0)?;
    for case in CASES {
        for long_stop in [false, true] {
            one_in_two(rt, one, other, plan, listed(case, long_stop));
        }
    }
    for walk in rounds(rt, &turns(heap)?) {
        one_in_two(rt, one, other, plan, walk);
    }
    Ok(())
}

// The lower storage of the stacked pair has 65 words. Word 65 is word 1 of entry 16, so the table lies in both.
fn stacked<F: PageForm>(
    rt: &impl Abort,
    heap: Global,
    plan: &SettledPlan<F>,
    above: usize,
) -> Result<(), Fail> {
    let mut bytes = bytes_of(heap, plan)?;
    let mut low = vec![in heap; 0u8; 260]?;
    let mut high = vec![in heap; 0u8; above]?;
    let mut pair = Stacked::new(RamBoard::new(&mut low), RamBoard::new(&mut high));
    in_two(rt, heap, &mut RamBoard::new(&mut bytes), &mut pair, plan)
}

// The upper storage has the rest: 65,536 - 260 bytes and 131,072 - 260.
#[test]
fn one_page_in_a_ram_board_and_a_stacked_pair(rt: HostRuntime) -> Result<(), Fail> {
    stacked(&rt, rt.alloc(), &plan_of(Form2K, 16, 0)?, 65276)?;
    stacked(&rt, rt.alloc(), &plan_of(Form4K, 17, 0)?, 130812)
}

// The blocks of the dump lie in reverse, so that the table, which is in page 0, lies in the last of them.
fn dumped<F: PageForm>(
    rt: &impl Abort,
    heap: Global,
    plan: &SettledPlan<F>,
    blocks: u16,
) -> Result<(), Fail> {
    let mut bytes = bytes_of(heap, plan)?;
    let mut dump = bytes_of(heap, plan)?;
    let mut board = DumpBoard::new(&mut dump);
    board.fill(&down_to(heap, blocks, 0)?)?;
    in_two(rt, heap, &mut RamBoard::new(&mut bytes), &mut board, plan)
}

// A block has 2,048 bytes: 65,536 bytes are 32 blocks and 131,072 bytes 64.
#[test]
fn one_page_in_a_ram_board_and_a_dump_board(rt: HostRuntime) -> Result<(), Fail> {
    dumped(&rt, rt.alloc(), &plan_of(Form2K, 16, 0)?, 32)?;
    dumped(&rt, rt.alloc(), &plan_of(Form4K, 17, 0)?, 64)
}
