use crate::checking::{are_replies, are_words, has_closed_table, runs_of, words_of};
use crate::every_two::{PairTest, on_every_two};
use crate::script::{Line, accepted, done, has_mark, loads, refused, script_of, stores};
use crate::support::{NOTHING, STORED, at, by_form, first_word, ordinary, up_to};
use crate::tables::{LAST, put_table};
use crate::world::fill;
use lanes::width::Width;
use paging::form::{Form2K, Form4K, PageForm};
use refusals::refusal::Refusal;
use runs::call::Call;
use runs::set_up::RegisterWrite;
use std::alloc::{AllocError, Global};
use std::process::Abort;
use std::test::Fail;
use storage::words::Storage;

// A word of real page 5, by its number.
fn fifth(n: u32, salt: u32) -> u32 {
    (n << 16 | n) ^ salt
}

// A table that can be stored to: page C of segment 2 lies in real page 0, where the table is. Page 10 lies in real page 4. The
// anchors are 2 XOR C, which is E, and 2 XOR 10, which is 12: 18 in 2K and 2 in 4K. Entry 5 has the tag of page 10 too, but
// stands in no chain, so that no load is granted from real page 5.
fn lay_out<F: PageForm, S: Storage>(storage: &mut S, salt: u32) -> Result<(), Fail> {
    fill::<F, S>(storage, 0)?;
    for n in first_word::<F>(5)..first_word::<F>(6) {
        storage.write(n, fifth(n, salt), 15)?;
    }
    let rows = [
        (0, 0x8004_0000, 0x0c, LAST, 0),
        (4, 0x8004_0000, 0x10, LAST, 0),
        (5, 0x8004_0000, 0x10, LAST, 0),
    ];
    put_table::<F, S>(storage, &[(0x0e, 0), (0x12, 4)], &rows)
}

// Where word 1 of anchor 18 or 2 lies, and word 0 of entry 5. The table begins at 512 in 2K and at 256 in 4K, and an entry has 16
// bytes: 512 + 288 + 4 and 512 + 80, and 256 + 32 + 4 and 256 + 80.
fn anchor_place<F: PageForm>() -> u32 {
    by_form::<F>(804, 292)
}

fn tag_place<F: PageForm>() -> u32 {
    by_form::<F>(592, 336)
}

// The tag of page 30 with key 10. In 4K the page number is one bit further left.
fn new_tag<F: PageForm>() -> u32 {
    by_form::<F>(0x8004_0030, 0x8004_0060)
}

// First the anchor is stored to: it points to entry 5. The buffers still have page 10 in real page 4; behind the purge of the
// page a walk finds it in real page 5. Then entry 5 gets the tag of page 30, which begins at the same anchor: 2 XOR 30 is 32, or
// 50. Behind the purge of the segment page 10 is not found behind entry 5, which is the last, and page 30 is. The accepted stores
// marked real page 0. The upper half of an anchor's word 1 is the pointer.
fn lines_of<F: PageForm>(salt: u32) -> [Line; 11] {
    let page = at::<F>(1, 0x10, 0);
    let anchor = at::<F>(1, 0x0c, anchor_place::<F>());
    let tag = at::<F>(1, 0x0c, tag_place::<F>());
    let (four, five) = (first_word::<F>(4), first_word::<F>(5));
    let old = four << 16 | four;
    let new = fifth(five, salt);
    let next = fifth(five | 1, salt);
    let walk = |reply| loads(page, Width::Word, reply);
    [
        walk(accepted(old, up_to(1, 4))),
        stores(anchor, Width::Halfword, 5, accepted(0, up_to(1, 0))),
        walk(accepted(old, NOTHING)),
        done(Call::PurgePage(page)),
        walk(accepted(new, up_to(1, 5))),
        stores(tag, Width::Word, new_tag::<F>(), accepted(0, NOTHING)),
        walk(accepted(new, NOTHING)),
        done(Call::PurgeSegment(1)),
        walk(refused(Refusal::PageFault, up_to(1, 5))),
        loads(
            at::<F>(1, 0x30, 4),
            Width::Word,
            accepted(next, up_to(1, 5)),
        ),
        has_mark(0, STORED),
    ]
}

// The pointer and the tag are altered, and no other word.
fn left_by_stores<F: PageForm>(heap: Global, before: &[u32]) -> Result<Vec<u32>, AllocError> {
    (0u32..16384)
        .zip(before)
        .map(|(n, word)| {
            if n == anchor_place::<F>() / 4 {
                *word & 0xffff | 5 << 16
            } else if n == tag_place::<F>() / 4 {
                new_tag::<F>()
            } else {
                *word
            }
        })
        .collect(heap)
}

#[derive(Drop)]
struct Altered<F> {
    form: F,
    second_salt: u32,
}

fn with_salt<F>(form: F, second_salt: u32) -> Altered<F> {
    Altered { form, second_salt }
}

// Each storage is answered by its own words.
impl<F: PageForm + Copy + Drop> PairTest for Altered<F> {
    fn on<A: Storage, B: Storage>(
        &self,
        rt: &impl Abort,
        heap: Global,
        first: &mut A,
        second: &mut B,
    ) -> Result<(), Fail> {
        lay_out::<F, A>(first, 0)?;
        lay_out::<F, B>(second, self.second_salt)?;
        let one = left_by_stores::<F>(heap, &words_of(heap, first)?)?;
        let other = left_by_stores::<F>(heap, &words_of(heap, second)?)?;
        let script = script_of(heap, &lines_of::<F>(0))?;
        let salted = script_of(heap, &lines_of::<F>(self.second_salt))?;
        let writes = [RegisterWrite::Segment(1, ordinary(2, false))];
        assert!(rt; !has_closed_table(self.form, &writes, first)?);
        assert!(rt; !has_closed_table(self.form, &writes, second)?);
        let runs = runs_of(rt, heap, self.form, &writes, &script.calls, first, second)?;
        are_replies(rt, &runs.first, &script.replies, "first");
        are_replies(rt, &runs.second, &salted.replies, "second");
        are_words(rt, first, &one)?;
        are_words(rt, second, &other)
    }
}

#[test]
fn stores_to_the_table_move_a_page(rt: HostRuntime) -> Result<(), Fail> {
    on_every_two(&rt, rt.alloc(), &with_salt(Form2K, 0))?;
    on_every_two(&rt, rt.alloc(), &with_salt(Form4K, 0))
}

// The same run on storages that differ in real page 5 alone, from which no load is granted at the start: the replies differ,
// since the stores to the table bring the page in. So what is granted at the start says what a run sees only where no word of the
// table can be stored to.
#[test]
fn stores_to_the_table_bring_a_page_in(rt: HostRuntime) -> Result<(), Fail> {
    on_every_two(&rt, rt.alloc(), &with_salt(Form2K, 0x0102_0304))?;
    on_every_two(&rt, rt.alloc(), &with_salt(Form4K, 0x0102_0304))
}
