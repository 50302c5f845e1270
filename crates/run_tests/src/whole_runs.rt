use crate::checking::{are_words, has_closed_table, run_both, words_of};
use crate::every_two::{PairTest, on_every_two};
use crate::probes::add_probes;
use crate::rounds::add_rounds;
use crate::script::Script;
use crate::words_left::left_of;
use crate::world::{lay_out, registers};
use paging::form::{Form2K, Form4K, PageForm};
use refusals::refusal::Refusal;
use std::alloc::{AllocError, Global};
use std::process::Abort;
use std::test::Fail;
use storage::words::Storage;

// The long run on two storages, whose words out of reach are salted each with its own number.
#[derive(Drop)]
pub(crate) struct LongRun<F> {
    pub form: F,
    pub first_salt: u32,
    pub second_salt: u32,
}

// 32 rounds of 22 calls, 5 purges, and 12 calls for what is out of reach: 704 + 5 + 12.
fn long_script<F: PageForm>(heap: Global) -> Result<Script, AllocError> {
    let mut script = Script::new(heap);
    add_rounds::<F>(&mut script)?;
    add_probes::<F>(&mut script)?;
    Ok(script)
}

fn left_by_run<F: PageForm>(heap: Global, before: &[u32]) -> Result<Vec<u32>, AllocError> {
    (0u32..16384)
        .zip(before)
        .map(|(n, word)| left_of::<F>(n, *word))
        .collect(heap)
}

impl<F: PageForm + Copy + Drop> PairTest for LongRun<F> {
    fn on<A: Storage, B: Storage>(
        &self,
        rt: &impl Abort,
        heap: Global,
        first: &mut A,
        second: &mut B,
    ) -> Result<(), Fail> {
        lay_out::<F, A>(first, self.first_salt)?;
        lay_out::<F, B>(second, self.second_salt)?;
        let one = left_by_run::<F>(heap, &words_of(heap, first)?)?;
        let other = left_by_run::<F>(heap, &words_of(heap, second)?)?;
        // no register leads to real page 0, where the table is
        assert!(rt; has_closed_table(self.form, &registers(), first)?);
        assert!(rt; has_closed_table(self.form, &registers(), second)?);
        let script = long_script::<F>(heap)?;
        assert_eq!(rt; script.calls.len(), 721);
        run_both(rt, heap, self.form, &registers(), &script, first, second)?;
        are_words(rt, first, &one)?;
        are_words(rt, second, &other)
    }
}

// The refusals of all runs, by the numbers that the documents cite.
const NUMBERS: [(Refusal, u8); 12] = [
    (Refusal::ExponentOutside, 1),
    (Refusal::BaseTooHigh, 2),
    (Refusal::RegisterOutside, 3),
    (Refusal::ValueTooWide, 5),
    (Refusal::SegmentAbsent, 6),
    (Refusal::SegmentBarred, 8),
    (Refusal::PageFault, 9),
    (Refusal::LongSearch, 10),
    (Refusal::EndlessChain, 12),
    (Refusal::ProtectionRefused, 13),
    (Refusal::LockRefused, 14),
    (Refusal::PageMarkOutside, 15),
];

#[test]
fn refusals_by_number(rt: HostRuntime) {
    for (refusal, number) in NUMBERS {
        assert_eq!(rt; refusal.number(), number);
    }
}

// Storages of the same words.
fn alike<F>(form: F) -> LongRun<F> {
    LongRun {
        form,
        first_salt: 0,
        second_salt: 0,
    }
}

#[test]
fn the_same_run_on_every_two_boards(rt: HostRuntime) -> Result<(), Fail> {
    on_every_two(&rt, rt.alloc(), &alike(Form2K))?;
    on_every_two(&rt, rt.alloc(), &alike(Form4K))
}
