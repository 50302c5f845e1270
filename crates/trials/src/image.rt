ghost use Rattle.std.specs.Prelude.{◌≡◌, ◌+◌, ◌^◌, ◌<◌, ◌≤◌};
ghost use Rattle.trials.specs.Image.{target_of, is_four, tag_word, word0, anchor_word, link_word, word2, table_word, bench_word, bench_words, bench_bounded};

use crate::bench::{Target, Trial};
use paging::form::PageForm;
use paging::smallest::page_count;
use refusals::refusal::Refusal;
use storage::words::ReadStorage;

// The words of the bench image of a trial, made up as they are read.
#[derive(Clone, Copy)]
pub struct BenchImage<F> {
    pub form: F,
    pub trial: Trial,
}

fn target_of<F: PageForm>(target: Target) -> u32
    ensures is { result ≡ target_of F.PageForm.sizes target }
    ensures low { result ≤ 32 }
{
    match target {
        Target::Nine => 9,
        Target::Four => 4,
        Target::Outside => page_count::<F>(),
    }
}

fn is_four(target: Target) -> bool
    ensures { result ≡ is_four target }
{
    matches!(target, Target::Four)
}

// survey_image has words of a table too, but that table is another: one function for both would need a crate below the two.
fn tag_word<F: PageForm>(page: u8) -> u32
    ensures is { result ≡ tag_word F.PageForm.sizes page }
    ensures low { result < 2 ^ 20 }
{
    (5 << 17) + (u32::from(page) << (17 - F::geometry().width))
}

// Trial and entry stay two parameters, as in the definitions: a struct of both would be made for one call, and taken apart in
// each function.
fn word_0<F: PageForm>(trial: Trial, entry: u32) -> u32
    ensures { result ≡ word0 F.PageForm.sizes trial «entry» }
{
    if entry == 9 {
        (u32::from(trial.entry.key) % 4 << 30) + tag_word::<F>(trial.entry.page)
    } else if entry == 4 && is_four(trial.target) {
        tag_word::<F>(38)
    } else {
        0
    }
}

fn anchor_word<F: PageForm>(trial: Trial, entry: u32) -> u32
    ensures is { result ≡ anchor_word F.PageForm.sizes trial «entry» }
    ensures low { result ≤ 2 ^ 31 }
{
    if entry == 3 {
        target_of::<F>(trial.target) << 16
    } else {
        1 << 31
    }
}

fn link_word(trial: Trial, entry: u32) -> u32
    ensures is { result ≡ link_word trial «entry» }
    ensures low { result ≤ 2 ^ 15 }
{
    if entry == 9 {
        if trial.entry.last { 1 << 15 } else { 9 }
    } else if entry == 4 && is_four(trial.target) {
        9
    } else {
        0
    }
}

fn word_2(trial: Trial, entry: u32) -> u32
    ensures { result ≡ word2 trial «entry» }
{
    if entry == 9 {
        let write = if trial.entry.write { 1 << 24 } else { 0 };
        write + (u32::from(trial.entry.transaction) << 16) + u32::from(trial.entry.locks)
    } else {
        0
    }
}

// The part is the place of the word in its entry, a number and no kind.
fn table_word<F: PageForm>(trial: Trial, entry: u32, part: u32) -> u32
    ensures { result ≡ table_word F.PageForm.sizes trial «entry» part }
{
    match part {
        0 => word_0::<F>(trial, entry),
        1 => anchor_word::<F>(trial, entry) + link_word(trial, entry),
        2 => word_2(trial, entry),
        _ => 0,
    }
}

fn bench_word<F: PageForm>(trial: Trial, n: u32) -> u32
    ensures { result ≡ bench_word F.PageForm.sizes trial n }
{
    if n == (9 * F::geometry().page + 4) / 4 {
        return 0x1122_3344;
    }
    if n < 256 {
        return 0;
    }
    if n < 256 + 4 * page_count::<F>() {
        table_word::<F>(trial, (n - 256) / 4, (n - 256) % 4)
    } else {
        0
    }
}

#[tactic(auto, using(storage::proofs::Tabulated::tables))]
impl<F: PageForm> ReadStorage for BenchImage<F> {
    ghost words = { λ s. bench_words F.PageForm.sizes s.trial };

    ghost bounded = { λ s. bench_bounded F.PageForm.sizes s.trial };

    fn count(&self) -> u32 {
        16384
    }

    fn read(&self, n: u32) -> Result<u32, Refusal> {
        if n >= 16384 {
            return Err(Refusal::WordOutside);
        }
        Ok(bench_word::<F>(self.trial, n))
    }
}
