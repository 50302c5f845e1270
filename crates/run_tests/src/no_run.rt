use crate::checking::{are_words, runs_of, words_of};
use crate::every_two::{PairTest, on_every_two};
use crate::support::{at, by_form};
use crate::world::{lay_out, registers};
use lanes::width::Width;
use paging::draft::Draft;
use paging::form::{Form2K, Form4K, PageForm};
use refusals::refusal::Refusal;
use runs::call::Call;
use runs::twice::{Hindrance, run_twice};
use std::alloc::Global;
use std::process::Abort;
use std::test::Fail;
use storage::words::Storage;

// Exponents from 16 to 24 settle (1), and base numbers up to 127 in 2K and 255 in 4K (2). The exponent is looked at first.
fn drafts<F: PageForm>() -> [(u32, u32, Refusal); 6] {
    let above = by_form::<F>(128, 256);
    [
        (25, 1, Refusal::ExponentOutside),
        (15, 1, Refusal::ExponentOutside),
        (16, above, Refusal::BaseTooHigh),
        (24, above, Refusal::BaseTooHigh),
        (16, 0xffff_ffff, Refusal::BaseTooHigh),
        (25, above, Refusal::ExponentOutside),
    ]
}

#[derive(Drop)]
struct Unsettled<F> {
    form: F,
}

// A draft that does not settle comes back as it was, and the store, which would be accepted on these storages, is not carried
// out.
impl<F: PageForm + Copy + Drop> PairTest for Unsettled<F> {
    fn on<A: Storage, B: Storage>(
        &self,
        rt: &impl Abort,
        heap: Global,
        first: &mut A,
        second: &mut B,
    ) -> Result<(), Fail> {
        lay_out::<F, A>(first, 0)?;
        lay_out::<F, B>(second, 0)?;
        let before = words_of(heap, first)?;
        let calls = [Call::Store(at::<F>(1, 0x10, 0), Width::Word, 0)];
        for (exponent, base, refusal) in drafts::<F>() {
            let draft = Draft {
                form: self.form,
                exponent,
                base,
            };
            match run_twice(heap, draft, &registers(), &calls, first, second) {
                Ok(_runs) => return Err(Fail::new("it was run")),
                Err(not_run) => {
                    assert_eq!(rt; not_run.reason, Hindrance::Refused(refusal));
                    assert_eq!(rt; not_run.draft.exponent, exponent);
                    assert_eq!(rt; not_run.draft.base, base);
                }
            }
        }
        are_words(rt, first, &before)?;
        are_words(rt, second, &before)
    }
}

#[test]
fn a_draft_that_does_not_settle(rt: HostRuntime) -> Result<(), Fail> {
    on_every_two(&rt, rt.alloc(), &Unsettled { form: Form2K })?;
    on_every_two(&rt, rt.alloc(), &Unsettled { form: Form4K })
}

#[derive(Drop)]
struct NoCalls<F> {
    form: F,
}

// Without calls there are no replies, and registers alone alter no word. The plan comes back.
impl<F: PageForm + Copy + Drop> PairTest for NoCalls<F> {
    fn on<A: Storage, B: Storage>(
        &self,
        rt: &impl Abort,
        heap: Global,
        first: &mut A,
        second: &mut B,
    ) -> Result<(), Fail> {
        lay_out::<F, A>(first, 0)?;
        lay_out::<F, B>(second, 0xffff_ffff)?;
        let one = words_of(heap, first)?;
        let other = words_of(heap, second)?;
        let runs = runs_of(rt, heap, self.form, &registers(), &[], first, second)?;
        assert!(rt; runs.first.is_empty());
        assert!(rt; runs.second.is_empty());
        are_words(rt, first, &one)?;
        are_words(rt, second, &other)
    }
}

#[test]
fn a_run_without_calls(rt: HostRuntime) -> Result<(), Fail> {
    on_every_two(&rt, rt.alloc(), &NoCalls { form: Form2K })?;
    on_every_two(&rt, rt.alloc(), &NoCalls { form: Form4K })
}
