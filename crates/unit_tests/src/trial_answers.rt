use crate::support::{NOTHING, accepted, first_is, refused, up_to};
use paging::form::PageForm;
use refusals::refusal::Refusal;
use std::process::Abort;
use std::test::Fail;
use storage::words::Storage;
use trials::running::run_trial;
use trials::table::all_trials;
use unit_state::answers::Answer;

// What comes of the twenty trials, where the table has so many entries. A walk that compares entry 9 alone has the count 1. The
// second request of trial 2 is a hit, which compares none. Exception bits: P is 2, F is 8, L, for a load, 1000 hex, D is 1, I is
// 40 hex, V is 20000 hex.
fn outcomes(entries: u16) -> [(Answer, u32); 20] {
    [
        (accepted(0x1122_3344, first_is(9)), 0),
        (accepted(0x1122_3344, NOTHING), 0),
        (refused(Refusal::ProtectionRefused, first_is(9)), 0x2),
        (accepted(0x1122_3344, first_is(9)), 0),
        (refused(Refusal::ProtectionRefused, first_is(9)), 0x1002),
        (refused(Refusal::ProtectionRefused, first_is(9)), 0x2),
        (accepted(0, first_is(9)), 0),
        (refused(Refusal::PageFault, NOTHING), 0x1008),
        (refused(Refusal::PageFault, first_is(9)), 0x1008),
        (accepted(0, first_is(9)), 0),
        // from trial 11 on
        (refused(Refusal::LockRefused, first_is(9)), 0x1),
        (accepted(0x1122_3344, first_is(9)), 0),
        (refused(Refusal::LockRefused, first_is(9)), 0x1001),
        (accepted(0x1122_3344, up_to(2, 9)), 0),
        (refused(Refusal::LongSearch, up_to(127, 9)), 0x1040),
        (refused(Refusal::EndlessChain, up_to(entries, 9)), 0),
        (refused(Refusal::PointerOutside, NOTHING), 0),
        (refused(Refusal::SegmentBarred, NOTHING), 0x2_1000),
        (refused(Refusal::LockRefused, first_is(9)), 0x1),
        (accepted(0, first_is(9)), 0),
    ]
}

// Runs all trials on a storage, each afresh, and compares answer and exception register.
pub(crate) fn all_on<F: PageForm + Copy, S: Storage>(
    rt: &impl Abort,
    form: F,
    storage: &mut S,
    entries: u16,
) -> Result<(), Fail> {
    let trials = all_trials().into_iter().zip(outcomes(entries));
    for (number, (trial, (answer, exceptions))) in (1u8..21).zip(trials) {
        let outcome = run_trial(form, storage, &trial)?;
        assert_eq!(rt; outcome.answer, answer, "trial {number}");
        assert_eq!(rt; outcome.exceptions, exceptions, "trial {number}");
    }
    Ok(())
}
