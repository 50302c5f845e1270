use crate::script::Script;
use crate::support::draft_of;
use mmu::unit::MemoryUnit;
use paging::form::PageForm;
use runs::call::{Call, Reply};
use runs::set_up::{RegisterWrite, write_registers};
use runs::twice::{TwoRuns, run_twice};
use std::alloc::Global;
use std::process::Abort;
use std::test::Fail;
use storage::words::{ReadStorage, Storage};

// All words of a storage. By a loop, since a word can be refused and so can room for it.
pub(crate) fn words_of<S: ReadStorage>(heap: Global, storage: &S) -> Result<Vec<u32>, Fail> {
    let mut words = Vec::new(heap);
    for n in 0..storage.count() {
        words.push(storage.read(n)?)?;
    }
    Ok(words)
}

// 64 KiB are 16,384 words.
pub(crate) fn are_words<S: ReadStorage>(
    rt: &impl Abort,
    storage: &S,
    expected: &[u32],
) -> Result<(), Fail> {
    assert_eq!(rt; storage.count(), 16384);
    assert_eq!(rt; expected.len(), 16384);
    for (n, word) in (0u32..16384).zip(expected) {
        assert_eq!(rt; storage.read(n)?, *word, "word {n}");
    }
    Ok(())
}

// All replies are the expected ones, as many of them.
pub(crate) fn are_replies(rt: &impl Abort, replies: &[Reply], expected: &[Reply], which: &str) {
    assert_eq!(rt; replies.len(), expected.len(), "{which}");
    for (k, (reply, wanted)) in replies.iter().zip(expected).enumerate() {
        assert_eq!(rt; *reply, *wanted, "{which}: call {k}");
    }
}

// Whether no word of the page table is granted for storing, to a unit with these registers.
pub(crate) fn has_closed_table<F: PageForm + Copy + Drop, S: ReadStorage>(
    form: F,
    writes: &[RegisterWrite],
    storage: &S,
) -> Result<bool, Fail> {
    let plan = draft_of(form).settle().map_err(|refused| refused.refusal)?;
    let mut unit = MemoryUnit::power_on(plan);
    write_registers(&mut unit, writes);
    Ok(unit.table_is_closed(storage))
}

// Carries the calls out on both storages. The plan comes back as it was drafted.
pub(crate) fn runs_of<F: PageForm + Copy + Drop, A: Storage, B: Storage>(
    rt: &impl Abort,
    heap: Global,
    form: F,
    writes: &[RegisterWrite],
    calls: &[Call],
    first: &mut A,
    second: &mut B,
) -> Result<TwoRuns<F>, Fail> {
    match run_twice(heap, draft_of(form), writes, calls, first, second) {
        Ok(runs) => {
            assert_eq!(rt; runs.draft.exponent, 16);
            assert_eq!(rt; runs.draft.base, 1);
            Ok(runs)
        }
        Err(_not_run) => Err(Fail::new("nothing was run")),
    }
}

// Each call gets its reply on both storages, and so both lists of replies are equal.
pub(crate) fn run_both<F: PageForm + Copy + Drop, A: Storage, B: Storage>(
    rt: &impl Abort,
    heap: Global,
    form: F,
    writes: &[RegisterWrite],
    script: &Script,
    first: &mut A,
    second: &mut B,
) -> Result<(), Fail> {
    let runs = runs_of(rt, heap, form, writes, &script.calls, first, second)?;
    are_replies(rt, &runs.first, &script.replies, "first");
    are_replies(rt, &runs.second, &script.replies, "second");
    assert_eq!(rt; runs.first.as_slice(), runs.second.as_slice());
    Ok(())
}
