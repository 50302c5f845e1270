use crate::checking::run_both;
use crate::every_two::{PairTest, on_every_two};
use crate::script::{accepted, loads, refused, script_of};
use crate::support::{
    ABSENT, NOTHING, absent, at, barred, draft_of, first_word, ordinary, special, up_to,
};
use crate::world::lay_out;
use lanes::width::Width;
use mmu::unit::MemoryUnit;
use paging::form::{Form2K, Form4K, PageForm};
use protection::register::SegmentRegister;
use refusals::refusal::Refusal;
use runs::set_up::{RegisterWrite, write_registers};
use std::alloc::Global;
use std::process::Abort;
use std::test::Fail;
use storage::words::Storage;

// Writes of which some are refused (3): registers 16 and 4,294,967,295 do not exist, and segment IDs 4,096 and 65,535 are too
// high. 15 and 4,095 are the highest. What is written twice keeps the later.
fn writes() -> [RegisterWrite; 14] {
    [
        RegisterWrite::Segment(1, ordinary(7, true)),
        RegisterWrite::Segment(16, ordinary(2, false)),
        RegisterWrite::Segment(1, ordinary(2, false)),
        RegisterWrite::Segment(1, ordinary(4096, true)),
        RegisterWrite::Transaction(0xff),
        RegisterWrite::Segment(2, ordinary(65535, false)),
        RegisterWrite::LongStop(true),
        RegisterWrite::Segment(3, special(0xabc)),
        RegisterWrite::LongStop(false),
        RegisterWrite::Segment(0xffff_ffff, ordinary(2, false)),
        RegisterWrite::Segment(15, barred(4095)),
        RegisterWrite::LongStop(true),
        RegisterWrite::Transaction(1),
        RegisterWrite::Segment(4, absent(2)),
    ]
}

// What the segment registers then hold. Those that are not written are as after power-on.
fn register_after(number: u32) -> SegmentRegister {
    match number {
        1 => ordinary(2, false),
        3 => special(0xabc),
        4 => absent(2),
        15 => barred(4095),
        _ => ABSENT,
    }
}

fn are_written<F: PageForm + Copy>(rt: &impl Abort, form: F) -> Result<(), Fail> {
    let plan = draft_of(form)
        .settle()
        .map_err(|refused| Fail::from(refused.refusal))?;
    let mut unit = MemoryUnit::power_on(plan);
    write_registers(&mut unit, &writes());
    for number in 0..16 {
        assert_eq!(rt; unit.segment(number), Ok(register_after(number)));
    }
    assert_eq!(rt; unit.transaction(), 1);
    assert!(rt; unit.long_stop());
    write_registers(&mut unit, &[RegisterWrite::LongStop(false)]);
    assert!(rt; !unit.long_stop());
    assert_eq!(rt; unit.transaction(), 1);
    Ok(())
}

#[test]
fn refused_writes_go_by(rt: HostRuntime) -> Result<(), Fail> {
    are_written(&rt, Form2K)?;
    are_written(&rt, Form4K)
}

#[derive(Drop)]
struct WithWrites<F> {
    form: F,
}

// A run with these registers: register 1 has segment 2, and register 2 nothing. With transaction ID 1 page 1A of the special
// segment can be used, which lies in real page 15, and page 5 cannot (14), in real page 8. Word 1 of a page holds its number in
// both halves.
impl<F: PageForm + Copy + Drop> PairTest for WithWrites<F> {
    fn on<A: Storage, B: Storage>(
        &self,
        rt: &impl Abort,
        heap: Global,
        first: &mut A,
        second: &mut B,
    ) -> Result<(), Fail> {
        lay_out::<F, A>(first, 0)?;
        lay_out::<F, B>(second, 0)?;
        let (four, fifteen) = (first_word::<F>(4) | 1, first_word::<F>(15) | 1);
        let lines = [
            loads(
                at::<F>(1, 0x10, 4),
                Width::Word,
                accepted(four << 16 | four, up_to(1, 4)),
            ),
            loads(
                at::<F>(2, 0x10, 4),
                Width::Word,
                refused(Refusal::SegmentAbsent, NOTHING),
            ),
            loads(
                at::<F>(3, 0x1a, 4),
                Width::Word,
                accepted(fifteen << 16 | fifteen, up_to(1, 15)),
            ),
            loads(
                at::<F>(3, 0x05, 4),
                Width::Word,
                refused(Refusal::LockRefused, up_to(1, 8)),
            ),
        ];
        let script = script_of(heap, &lines)?;
        run_both(rt, heap, self.form, &writes(), &script, first, second)
    }
}

#[test]
fn a_run_with_refused_writes(rt: HostRuntime) -> Result<(), Fail> {
    on_every_two(&rt, rt.alloc(), &WithWrites { form: Form2K })?;
    on_every_two(&rt, rt.alloc(), &WithWrites { form: Form4K })
}
