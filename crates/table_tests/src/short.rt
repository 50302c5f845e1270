use crate::chains::{Case, listed, put_table};
use crate::support::{Walk, answers, plan_of};
use boards::ram::RamBoard;
use paging::form::{Form2K, Form4K, PageForm};
use paging::plan::SettledPlan;
use std::alloc::Global;
use std::process::Abort;
use std::test::Fail;

// How many words a storage has, and a walk in it: the segment ID and page number, the number of the refusal (0 where the
// page is found), and the entries that are compared. A word that is not there is refused with 16.
//
// The chain begins at anchor 8 and has entries 0, 31 and 5. Word n of entry i is word 4 * i + n of the storage. So the anchor
// is in word 33; the tag of entry 31 is in word 124, its pointer in word 125 and its lock bits in word 126.
const CASES: [(usize, Case); 15] = [
    // the anchor is not there
    (0, (0xabc, 0x1254, 16, &[])),
    (33, (0xabc, 0x1254, 16, &[])),
    // the tag of the second entry is not there
    (34, (0xabc, 0x1254, 0, &[0])),
    (34, (0x2bc, 0x1234, 16, &[0])),
    (34, (0xabc, 0x1234, 16, &[0])),
    (124, (0x2bc, 0x1234, 16, &[0])),
    (124, (0xabc, 0x1234, 16, &[0])),
    // its tag is there, and is compared, but neither its lock bits, where it is equal, nor its pointer, where it differs
    (125, (0x2bc, 0x1234, 16, &[0, 31])),
    (125, (0xabc, 0x1234, 16, &[0, 31])),
    (125, (0xabc, 0x1274, 16, &[0, 31])),
    // its pointer is there too
    (126, (0x2bc, 0x1234, 16, &[0, 31])),
    (126, (0xabc, 0x1234, 0, &[0, 31, 5])),
    (126, (0xabc, 0x1274, 9, &[0, 31, 5])),
    // only word 3 of the last entry is not there, which is reserved
    (127, (0x2bc, 0x1234, 0, &[0, 31])),
    (127, (0xabc, 0x1234, 0, &[0, 31, 5])),
];

// Searches the first words of a table. Cut off is all of a table that starts behind them.
fn cut_to<F: PageForm>(
    rt: &impl Abort,
    heap: Global,
    bytes: &mut [u8],
    words: usize,
    plan: &SettledPlan<F>,
    behind: &SettledPlan<F>,
    case: Case,
) -> Result<(), Fail> {
    assert!(rt; words <= 128 && bytes.len() == 512);
    let board = RamBoard::new(&mut bytes[0..4 * words]);
    let setting = format!(in heap; "{words} words")?;
    for long_stop in [false, true] {
        answers(rt, heap, &board, plan, listed(case, long_stop), &setting)?;
    }
    let cut_off = Walk {
        number: 16,
        path: &[],
        ..listed(case, false)
    };
    let setting = "a table behind the storage";
    answers(rt, heap, &board, behind, cut_off, setting)
}

// A table of 32 entries has 512 bytes. With base 1 it starts at byte 512.
fn cut_short<F: PageForm>(
    rt: &impl Abort,
    heap: Global,
    plan: &SettledPlan<F>,
    behind: &SettledPlan<F>,
) -> Result<(), Fail> {
    for (words, case) in CASES {
        let mut bytes = vec![in heap; 0u8; 512]?;
        put_table::<F, RamBoard>(rt, &mut RamBoard::new(&mut bytes), 0)?;
        cut_to(rt, heap, &mut bytes, words, plan, behind, case)?;
    }
    Ok(())
}

// A table has 32 entries in 2K with exponent 16 and in 4K with exponent 17.
#[test]
fn storages_that_end_within_the_table(rt: HostRuntime) -> Result<(), Fail> {
    let (plan, behind) = (plan_of(Form2K, 16, 0)?, plan_of(Form2K, 16, 1)?);
    cut_short(&rt, rt.alloc(), &plan, &behind)?;
    let (plan, behind) = (plan_of(Form4K, 17, 0)?, plan_of(Form4K, 17, 1)?);
    cut_short(&rt, rt.alloc(), &plan, &behind)
}
