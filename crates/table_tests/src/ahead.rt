use crate::chains::put_table;
use crate::support::{page_of, plan_of, virtual_page};
use boards::ram::RamBoard;
use page_table::entry::{Link, Tag};
use page_table::search::search;
use page_table::walk::{Compared, Fault, Found, Linked};
use paging::form::{Form2K, Form4K, PageForm};
use paging::plan::SettledPlan;
use refusals::refusal::Refusal;
use std::alloc::Global;
use std::process::Abort;
use std::test::Fail;

// How many words a storage has, the segment ID and page number that are asked for in it, and how `search` refuses: why, how
// many entries are compared, and the last of them.
//
// It reads words 0 and 1 of an entry before it compares, and word 2 where the entry is equal. Where one of them is not there,
// the count is that of the entries before, and the entry itself is the last.
//
// The chain begins at anchor 8 and has entries 0, 31 and 5. Word n of entry i is word 4 * i + n of the storage. So the anchor
// is in word 33; the tag of entry 31 is in word 124, its pointer in word 125 and its lock bits in word 126.
const REFUSED: [(usize, u16, u32, Refusal, u16, Option<u16>); 12] = [
    // the anchor is not there
    (0, 0xabc, 0x1254, Refusal::WordOutside, 0, None),
    (33, 0xabc, 0x1254, Refusal::WordOutside, 0, None),
    // the tag of the second entry is not there: only entry 0 is compared
    (34, 0x2bc, 0x1234, Refusal::WordOutside, 1, Some(31)),
    (34, 0xabc, 0x1234, Refusal::WordOutside, 1, Some(31)),
    (124, 0x2bc, 0x1234, Refusal::WordOutside, 1, Some(31)),
    (124, 0xabc, 0x1274, Refusal::WordOutside, 1, Some(31)),
    // its tag is there, but not its pointer, so it is not compared, be it equal or not
    (125, 0x2bc, 0x1234, Refusal::WordOutside, 1, Some(31)),
    (125, 0xabc, 0x1234, Refusal::WordOutside, 1, Some(31)),
    (125, 0xabc, 0x1274, Refusal::WordOutside, 1, Some(31)),
    // its pointer is there too, but not its lock bits: it is equal, and does not count
    (126, 0x2bc, 0x1234, Refusal::WordOutside, 1, Some(31)),
    // it differs, and so does the last entry
    (126, 0xabc, 0x1274, Refusal::PageFault, 3, Some(5)),
    (127, 0xabc, 0x1274, Refusal::PageFault, 3, Some(5)),
];

// The same where the page is found: the entry, how many entries are compared, whether the entry is the last of its chain, and
// its pointer.
const FOUND: [(usize, u16, u32, u16, u16, bool, u16); 4] = [
    (34, 0xabc, 0x1254, 0, 1, false, 31),
    // it differs from entry 31, whose lock bits are not there
    (126, 0xabc, 0x1234, 5, 3, true, 0),
    // only word 3 of entry 31 is not there, which is reserved
    (127, 0x2bc, 0x1234, 31, 2, false, 5),
    (127, 0xabc, 0x1234, 5, 3, true, 0),
];

// Searches the first words of a table, with the long-search bit off and on: it makes no difference here.
fn answers_ahead<F: PageForm>(
    rt: &impl Abort,
    bytes: &mut [u8],
    words: usize,
    plan: &SettledPlan<F>,
    tag: Tag,
    expected: Result<Linked, Fault>,
) {
    assert!(rt; words <= 128 && bytes.len() == 512);
    let Tag { segment, page } = tag;
    let board = RamBoard::new(&mut bytes[0..4 * words]);
    for long_search in [false, true] {
        let outcome = search(&board, plan, tag, long_search);
        assert_eq!(rt;
            outcome,
            expected,
            "{words} words: segment {segment}, page {page}, long-search bit {long_search}"
        );
    }
}

// A table of 32 entries has 512 bytes.
fn cut_ahead<F: PageForm>(
    rt: &impl Abort,
    heap: Global,
    plan: &SettledPlan<F>,
) -> Result<(), Fail> {
    let mut bytes = vec![in heap; 0u8; 512]?;
    put_table::<F, RamBoard>(rt, &mut RamBoard::new(&mut bytes), 0)?;
    for (words, segment, page, refusal, compared, last) in REFUSED {
        let fault = Fault {
            refusal,
            compared: Compared {
                count: compared,
                last,
            },
        };
        let tag = virtual_page(segment, page);
        answers_ahead(rt, &mut bytes, words, plan, tag, Err(fault));
    }
    for (words, segment, page, entry, compared, last, next) in FOUND {
        let tag = virtual_page(segment, page);
        let found = Found {
            entry,
            page: page_of(entry, tag),
            compared,
        };
        let link = Link { last, next };
        let linked = Linked { found, link };
        answers_ahead(rt, &mut bytes, words, plan, tag, Ok(linked));
    }
    Ok(())
}

// A table has 32 entries in 2K with exponent 16 and in 4K with exponent 17.
#[test]
fn searches_that_read_ahead(rt: HostRuntime) -> Result<(), Fail> {
    cut_ahead(&rt, rt.alloc(), &plan_of(Form2K, 16, 0)?)?;
    cut_ahead(&rt, rt.alloc(), &plan_of(Form4K, 17, 0)?)
}
