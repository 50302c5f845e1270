use crate::on_boards::{
    BoardTest, has_byte, on_dump_board, on_interleaved_pair, on_ram_board, on_stacked_pair,
};
use crate::support::{LOADED, STORED, Step, only_marked, real_at, unit_of};
use lanes::width::Width;
use paging::form::{Form2K, Form4K, PageForm};
use std::alloc::Global;
use std::process::Abort;
use std::test::Fail;
use storage::words::Storage;
use unit_state::answers::{answer_number, answer_value};
use unit_state::state::PageMark;

// Requests on 64 KiB of zeros: an address, a width, a step, and the number and the value of the answer. 7FF is the last byte
// of a page of 2,048 and the last of its word; the halfword at 801 counts as the one at 800, in the upper half of its word.
const REQUESTS: [(u32, Width, Step, u8, u32); 12] = [
    (0x0000, Width::Word, Step::Store(0x0123_4567), 0, 0),
    (0x0001, Width::Byte, Step::Load, 0, 0x23),
    (0x07ff, Width::Byte, Step::Store(0x9a), 0, 0),
    (0x07fe, Width::Word, Step::Load, 0, 0x0000_009a),
    (0x0801, Width::Halfword, Step::Store(0xbeef), 0, 0),
    (0x0802, Width::Word, Step::Load, 0, 0xbeef_0000),
    (0x8000, Width::Halfword, Step::Load, 0, 0),
    (0x8000, Width::Byte, Step::Store(0x100), 5, 0),
    (0xfffd, Width::Word, Step::Store(0xfedc_ba98), 0, 0),
    (0xffff, Width::Byte, Step::Load, 0, 0x98),
    (0x1_0000, Width::Byte, Step::Load, 7, 0),
    (0x1_0000, Width::Word, Step::Store(0), 7, 0),
];

// A form, how many pages of it 64 KiB have, and which of these the requests mark.
struct RealRequests<'a, F> {
    form: F,
    pages: u32,
    marks: &'a [(u32, PageMark)],
}

// Checks the answers to the requests, the words that they leave and the marks of the pages.
impl<'a, F: PageForm + Copy> BoardTest for RealRequests<'a, F> {
    fn on<S: Storage>(&self, rt: &impl Abort, board: &mut S) -> Result<(), Fail> {
        let mut unit = unit_of(self.form, 16, 0)?;
        for (address, width, step, number, value) in REQUESTS {
            let answer = step.by_real(&mut unit, board, real_at(address), width);
            assert_eq!(rt; answer_number(&answer), number, "address {address}");
            assert_eq!(rt; answer_value(&answer), value, "address {address}");
        }
        for (n, word) in [
            (0x0000, 0x0123_4567),
            (0x01ff, 0x0000_009a),
            (0x0200, 0xbeef_0000),
            (0x2000, 0),
            (0x3fff, 0xfedc_ba98),
        ] {
            assert_eq!(rt; board.read(n), Ok(word), "word {n}");
        }
        only_marked(rt, &unit, self.pages, self.marks);
        Ok(())
    }
}

// The accepted requests reach bytes 0, 7FF, 800, 8000 and FFFF. By 2,048 they lie in pages 0, 0, 1, 16 and 31.
const IN_2K: RealRequests<'static, Form2K> = RealRequests {
    form: Form2K,
    pages: 32,
    marks: &[(0, STORED), (1, STORED), (16, LOADED), (31, STORED)],
};

// By 4,096 they lie in pages 0, 0, 0, 8 and 15.
const IN_4K: RealRequests<'static, Form4K> = RealRequests {
    form: Form4K,
    pages: 16,
    marks: &[(0, STORED), (8, LOADED), (15, STORED)],
};

#[test]
fn requests_on_a_ram_board(rt: HostRuntime) -> Result<(), Fail> {
    on_ram_board(&rt, rt.alloc(), &IN_2K)?;
    on_ram_board(&rt, rt.alloc(), &IN_4K)?;
    Ok(())
}

// The page that each block of 2,048 bytes holds: block b has page (5 b + 3) % 32, so each page stands once.
const SHUFFLED: [u16; 32] = [
    3, 8, 13, 18, 23, 28, 1, 6, 11, 16, 21, 26, 31, 4, 9, 14, 19, 24, 29, 2, 7, 12, 17, 22, 27, 0,
    5, 10, 15, 20, 25, 30,
];

// The blocks of a dump in any order answer as one storage. Page 0 is in block 25, so the first word is at byte 51,200.
fn on_dump(rt: &impl Abort, heap: Global, test: &impl BoardTest) -> Result<(), Fail> {
    let bytes = on_dump_board(rt, heap, &SHUFFLED, test)?;
    has_byte(rt, &bytes, 0, 0);
    has_byte(rt, &bytes, 51200, 0x01);
    has_byte(rt, &bytes, 51203, 0x67);
    Ok(())
}

#[test]
fn requests_on_a_dump_board(rt: HostRuntime) -> Result<(), Fail> {
    on_dump(&rt, rt.alloc(), &IN_2K)?;
    on_dump(&rt, rt.alloc(), &IN_4K)
}

// Even words in one storage and odd words in the other: each has half of the 64 KiB. The last word is odd.
#[test]
fn requests_on_an_interleaved_pair(rt: HostRuntime) -> Result<(), Fail> {
    let odd = on_interleaved_pair(&rt, rt.alloc(), &IN_2K)?;
    has_byte(&rt, &odd, 32767, 0x98);
    let odd = on_interleaved_pair(&rt, rt.alloc(), &IN_4K)?;
    has_byte(&rt, &odd, 32767, 0x98);
    Ok(())
}

// One storage behind the other: 2,048 bytes and then the rest, so that the first page of 4,096 lies in both.
#[test]
fn requests_on_a_stacked_pair(rt: HostRuntime) -> Result<(), Fail> {
    let high = on_stacked_pair(&rt, rt.alloc(), 2048, 63488, &IN_2K)?;
    has_byte(&rt, &high, 0, 0xbe);
    let high = on_stacked_pair(&rt, rt.alloc(), 2048, 63488, &IN_4K)?;
    has_byte(&rt, &high, 0, 0xbe);
    Ok(())
}
