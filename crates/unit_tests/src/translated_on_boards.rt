use crate::on_boards::{
    BoardTest, REVERSED, has_byte, on_dump_board, on_interleaved_pair, on_ram_board,
    on_stacked_pair,
};
use crate::support::{STORED, Step, at, only_marked, ordinary, special, unit_of};
use crate::tables::{first_word, keyed, locked, put_table, small_table};
use lanes::width::Width;
use paging::form::{Form2K, Form4K, PageForm};
use std::process::Abort;
use std::test::Fail;
use storage::words::Storage;
use unit_state::answers::{answer_number, answer_value};

// Requests on zeros: the register, the virtual page and the place in it; the width; what to do; the number and the value of
// the answer. Registers 1 and 2 have segment 2, with K 0 and 1: its page 12 lies in real page 11 and permits all, its page 13
// in real page 5, with key 01. Register 3 has the special segment ABC: its page 0 lies in real page 15, its write bit is on,
// and the lock bits of lines 7 and 15. Byte 7FF is in line 15 of a page in 2K and in line 7 in 4K, byte 80 in lines 1 and 0.
const REQUESTS: [(u32, u32, u32, Width, Step, u8, u32); 12] = [
    (1, 0x12, 0x7ff, Width::Byte, Step::Store(0x9a), 0, 0),
    (1, 0x12, 0x7fe, Width::Word, Step::Load, 0, 0x0000_009a),
    (1, 0x13, 0x001, Width::Halfword, Step::Store(0xbeef), 0, 0),
    (2, 0x13, 0x002, Width::Word, Step::Load, 0, 0xbeef_0000),
    (2, 0x13, 0x000, Width::Word, Step::Store(1), 13, 0),
    (3, 0x00, 0x7ff, Width::Word, Step::Store(0xfedc_ba98), 0, 0),
    (3, 0x00, 0x7fe, Width::Halfword, Step::Load, 0, 0xba98),
    (3, 0x00, 0x080, Width::Byte, Step::Store(1), 14, 0),
    (3, 0x00, 0x080, Width::Byte, Step::Load, 0, 0),
    (1, 0x14, 0x000, Width::Byte, Step::Load, 9, 0),
    (1, 0x12, 0x000, Width::Halfword, Step::Store(0x1_0000), 5, 0),
    (4, 0x12, 0x000, Width::Byte, Step::Load, 6, 0),
];

// A form, and how many pages of it 64 KiB have.
struct Translated<F> {
    form: F,
    pages: u32,
}

// Checks the answers to the requests, the words that they leave and the marks of the pages. 7FC is the place of word 511 of a
// page. Segment 2 has anchor 10 for page 12, 11 for page 13 and 16 for page 14 (hexadecimal): 16, 17 and 22 with 32 entries,
// and 0, 1 and 6 with 16. ABC has anchor 28 or 12. So page 14 has an empty anchor.
impl<F: PageForm + Copy> BoardTest for Translated<F> {
    fn on<S: Storage>(&self, rt: &impl Abort, board: &mut S) -> Result<(), Fail> {
        let mapped = [
            (11, keyed(2, 0x12, 2)),
            (5, keyed(2, 0x13, 1)),
            (15, locked(0xabc, 0, true, 0, 0x0101)),
        ];
        put_table::<F, S>(rt, board, small_table::<F>(), &mapped)?;
        let mut unit = unit_of(self.form, 16, 1)?;
        unit.write_segment(1, ordinary(2, false))?;
        unit.write_segment(2, ordinary(2, true))?;
        unit.write_segment(3, special(0xabc))?;
        for (register, page, place, width, step, number, value) in REQUESTS {
            let address = at::<F>(register, page, place);
            let answer = step.by_effective(&mut unit, board, address, width);
            assert_eq!(rt;
                answer_number(&answer),
                number,
                "page {page}, place {place}"
            );
            assert_eq!(rt; answer_value(&answer), value, "page {page}, place {place}");
        }
        for (n, word) in [
            (first_word::<F>(11) | 511, 0x0000_009a),
            (first_word::<F>(11), 0),
            (first_word::<F>(5), 0xbeef_0000),
            (first_word::<F>(15) | 511, 0xfedc_ba98),
            (first_word::<F>(15) | 32, 0),
        ] {
            assert_eq!(rt; board.read(n), Ok(word), "word {n}");
        }
        only_marked(
            rt,
            &unit,
            self.pages,
            &[(5, STORED), (11, STORED), (15, STORED)],
        );
        Ok(())
    }
}

const IN_2K: Translated<Form2K> = Translated {
    form: Form2K,
    pages: 32,
};

const IN_4K: Translated<Form4K> = Translated {
    form: Form4K,
    pages: 16,
};

// The byte 9A is byte 7FF of real page 11, which is at B * 800 = 5800 in 2K and at B000 in 4K: byte 24,575 or 47,103.
#[test]
fn translated_requests_on_a_ram_board(rt: HostRuntime) -> Result<(), Fail> {
    let bytes = on_ram_board(&rt, rt.alloc(), &IN_2K)?;
    has_byte(&rt, &bytes, 24575, 0x9a);
    let bytes = on_ram_board(&rt, rt.alloc(), &IN_4K)?;
    has_byte(&rt, &bytes, 47103, 0x9a);
    Ok(())
}

// The blocks of the dump, of 2,048 bytes, lie in reverse: block b has page 31 - b of 2K. Byte 24,575 ends page 11, in block
// 20, which ends with byte 43,007. Byte 47,103 ends page 22, in block 9, which ends with byte 20,479.
#[test]
fn translated_requests_on_a_dump_board(rt: HostRuntime) -> Result<(), Fail> {
    let bytes = on_dump_board(&rt, rt.alloc(), &REVERSED, &IN_2K)?;
    has_byte(&rt, &bytes, 43007, 0x9a);
    let bytes = on_dump_board(&rt, rt.alloc(), &REVERSED, &IN_4K)?;
    has_byte(&rt, &bytes, 20479, 0x9a);
    Ok(())
}

// Even words lie in one storage and odd words in the other. Byte 24,575 ends word 6,143, which is odd word 3,071, ending with
// byte 12,287. Byte 47,103 ends word 11,775, which is odd word 5,887, ending with byte 23,551.
#[test]
fn translated_requests_on_an_interleaved_pair(rt: HostRuntime) -> Result<(), Fail> {
    let odd = on_interleaved_pair(&rt, rt.alloc(), &IN_2K)?;
    has_byte(&rt, &odd, 12287, 0x9a);
    let odd = on_interleaved_pair(&rt, rt.alloc(), &IN_4K)?;
    has_byte(&rt, &odd, 23551, 0x9a);
    Ok(())
}

// One storage behind the other: the upper one begins with the word that 9A ends, so that its page lies in both. That word is
// number 6,143 or 11,775, and so the lower one has 24,572 or 47,100 bytes, and the upper one the rest of 65,536.
#[test]
fn translated_requests_on_a_stacked_pair(rt: HostRuntime) -> Result<(), Fail> {
    let high = on_stacked_pair(&rt, rt.alloc(), 24572, 40964, &IN_2K)?;
    has_byte(&rt, &high, 3, 0x9a);
    let high = on_stacked_pair(&rt, rt.alloc(), 47100, 18436, &IN_4K)?;
    has_byte(&rt, &high, 3, 0x9a);
    Ok(())
}
