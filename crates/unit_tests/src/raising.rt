use crate::support::{Step, at, barred, ordinary, special, unit_of, zeros};
use crate::tables::{keyed, locked, put_anchor, put_link, put_table, small_table};
use boards::ram::RamBoard;
use exceptions::registers::Exceptions;
use lanes::width::Width;
use mmu::unit::MemoryUnit;
use paging::address::{EffectiveAddress, RealAddress};
use paging::form::{Form2K, Form4K, PageForm};
use std::alloc::Global;
use std::process::Abort;
use std::test::Fail;
use storage::words::Storage;
use unit_state::answers::answer_number;

// A way to be refused: the number of the refusal, its bit of the exception register, and the segment register and the virtual
// page to ask for. Bit b counts 2^(31 - b): V 14 is 2^17, F 28 is 2^3, I 25 is 2^6, P 30 is 2 and D 31 is 1.
type Cause = (u8, u32, u32, u32);

const CAUSES: [Cause; 5] = [
    (8, 0x0002_0000, 8, 0x10),
    (9, 0x0000_0008, 1, 0x22),
    (10, 0x0000_0040, 1, 0x37),
    (13, 0x0000_0002, 2, 0x40),
    (14, 0x0000_0001, 3, 0x58),
];

// Bit 27 for more than one exception, and bit 19 for a load.
const MULTIPLE: u32 = 0x0000_0010;

const LOAD: u32 = 0x0000_1000;

// The place to ask for: no multiple of 4, and the address register takes it as it is.
const PLACE: u32 = 0x103;

// A table in which each of the ways leads where it should. Page 22 of segment 1 has anchor 23, which is 3 with 32 and with 16
// entries, and is empty. Pages 37 and 57 of segment 1 have anchors 36 and 56: 22 (16 hexadecimal) with 32 entries and 6 with
// 16. Entry 7, which holds page 57, points to itself, so that the walk for page 37 has no end. Page 40 of segment 2, key 00,
// has anchor 42, which is 2. Page 58 of segment 3, without write bit and lock bits, has anchor 5B: 27 and 11. Anchor 9, of
// page 28 of segment 1, points outside the table.
fn put_causes<F: PageForm, S: Storage>(rt: &impl Abort, storage: &mut S) -> Result<(), Fail> {
    let table = small_table::<F>();
    let pages = [
        (7, keyed(1, 0x57, 2)),
        (8, keyed(2, 0x40, 0)),
        (9, locked(3, 0x58, false, 0, 0)),
    ];
    put_table::<F, S>(rt, storage, table, &pages)?;
    put_link(rt, storage, table, 7, false, 7)?;
    put_anchor(rt, storage, table, 9, false, 8191)
}

// The registers to go with it: register 2 has K 1, register 3 a special segment, and register 8 a barred one.
fn unit_for_causes<F: PageForm + Copy>(form: F) -> Result<MemoryUnit<F>, Fail> {
    let mut unit = unit_of(form, 16, 1)?;
    unit.write_segment(1, ordinary(1, false))?;
    unit.write_segment(2, ordinary(2, true))?;
    unit.write_segment(3, special(3))?;
    unit.write_segment(8, barred(8))?;
    unit.write_long_stop(true);
    Ok(unit)
}

fn address_of<F: PageForm>(cause: Cause) -> EffectiveAddress {
    let (_, _, register, page) = cause;
    at::<F>(register, page, PLACE)
}

// Is refused in one of the ways.
fn raise<F: PageForm, S: Storage>(
    rt: &impl Abort,
    unit: &mut MemoryUnit<F>,
    storage: &mut S,
    cause: Cause,
    step: Step,
    case: &str,
) {
    let (number, _, _, _) = cause;
    let answer = step.by_effective(unit, storage, address_of::<F>(cause), Width::Word);
    assert_eq!(rt; answer_number(&answer), number, "{case}");
}

// Checks the exception register, the address register, and whether that is locked.
fn shows<F: PageForm>(
    rt: &impl Abort,
    unit: &MemoryUnit<F>,
    word: u32,
    address: EffectiveAddress,
    locked: bool,
    case: &str,
) {
    let exceptions = unit.exceptions();
    assert_eq!(rt; exceptions.word(), word, "{case}");
    assert_eq!(rt; exceptions.address, address, "{case}");
    assert_eq!(rt; exceptions.locked, locked, "{case}");
}

// A load, with the bit that it puts into the exception register, and a store, which puts none there.
const STEPS: [(Step, u32); 2] = [(Step::Load, LOAD), (Step::Store(5), 0)];

// The first exception sets its bit, locks its address, and says whether it was a load. The second adds its bit and the bit
// for more than one, also where it is the same; address and load bit stay. Clearing leaves zeros and the address, unlocked.
// After that an exception is the first again.
fn one_then_another<F: PageForm + Copy, S: Storage>(
    rt: &impl Abort,
    heap: Global,
    form: F,
    storage: &mut S,
    one: Cause,
    another: Cause,
) -> Result<(), Fail> {
    let (first, one_bit, _, _) = one;
    let (second, another_bit, _, _) = another;
    let case = format!(in heap; "{first}, then {second}")?;
    let both = one_bit | another_bit | MULTIPLE;
    let address = address_of::<F>(one);
    for (one_step, one_load) in STEPS {
        for (another_step, another_load) in STEPS {
            let mut unit = unit_for_causes(form)?;
            raise(rt, &mut unit, storage, one, one_step, &case);
            shows(rt, &unit, one_bit | one_load, address, true, &case);
            raise(rt, &mut unit, storage, another, another_step, &case);
            shows(rt, &unit, both | one_load, address, true, &case);
            unit.clear_exceptions();
            shows(rt, &unit, 0, address, false, &case);
            raise(rt, &mut unit, storage, another, another_step, &case);
            shows(
                rt,
                &unit,
                another_bit | another_load,
                address_of::<F>(another),
                true,
                &case,
            );
        }
    }
    Ok(())
}

fn any_two<F: PageForm + Copy, S: Storage>(
    rt: &impl Abort,
    heap: Global,
    form: F,
    storage: &mut S,
) -> Result<(), Fail> {
    put_causes::<F, S>(rt, storage)?;
    for one in CAUSES {
        for another in CAUSES {
            one_then_another(rt, heap, form, storage, one, another)?;
        }
    }
    Ok(())
}

#[test]
fn exceptions_one_after_the_other(rt: HostRuntime) -> Result<(), Fail> {
    let heap = rt.alloc();
    any_two(&rt, heap, Form2K, &mut RamBoard::new(&mut zeros(heap)?))?;
    any_two(&rt, heap, Form4K, &mut RamBoard::new(&mut zeros(heap)?))
}

// Bits that are on stay on. All five and the bit for more than one are 20000 + 8 + 40 + 2 + 1 + 10 = 2005B, and 2105B where
// the first was a load. An accepted request raises nothing, and reading the registers alters nothing.
fn all_five<F: PageForm + Copy, S: Storage>(
    rt: &impl Abort,
    form: F,
    storage: &mut S,
) -> Result<(), Fail> {
    put_causes::<F, S>(rt, storage)?;
    for (step, word) in [(Step::Load, 0x0002_105b), (Step::Store(0), 0x0002_005b)] {
        let case = "all five";
        let mut unit = unit_for_causes(form)?;
        shows(rt, &unit, 0, EffectiveAddress { number: 0 }, false, case);
        for cause in CAUSES {
            raise(rt, &mut unit, storage, cause, step, case);
        }
        let address = at::<F>(8, 0x10, PLACE);
        shows(rt, &unit, word, address, true, case);
        shows(rt, &unit, word, address, true, case);
        let loaded = unit.load(storage, at::<F>(1, 0x57, 0), Width::Word);
        assert_eq!(rt; answer_number(&loaded), 0);
        shows(rt, &unit, word, address, true, case);
        unit.clear_exceptions();
        shows(rt, &unit, 0, address, false, case);
        unit.clear_exceptions();
        shows(rt, &unit, 0, address, false, case);
    }
    Ok(())
}

#[test]
fn exceptions_that_add_up(rt: HostRuntime) -> Result<(), Fail> {
    all_five(&rt, Form2K, &mut RamBoard::new(&mut zeros(rt.alloc())?))?;
    all_five(&rt, Form4K, &mut RamBoard::new(&mut zeros(rt.alloc())?))
}

// Requests by effective address that are refused with 4, 5, 6, 11 and 12, or accepted: 4 in a storage of another size, 5 for
// a value too wide, 6 through register 9, 11 by the anchor that points outside, and 12 in the chain without an end once the
// long-stop bit is off.
fn refused_requests<F: PageForm, S: Storage, T: Storage>(
    rt: &impl Abort,
    unit: &mut MemoryUnit<F>,
    storage: &mut S,
    short: &mut T,
    expected: Exceptions,
) {
    unit.write_long_stop(false);
    let number = answer_number(&unit.load(short, at::<F>(8, 0x10, 0), Width::Byte));
    assert_eq!(rt; number, 4);
    assert_eq!(rt; unit.exceptions(), expected);
    for (register, page, step, number) in [
        (8, 0x10, Step::Store(0x100), 5),
        (9, 0x10, Step::Load, 6),
        (9, 0x10, Step::Store(0xff), 6),
        (1, 0x28, Step::Load, 11),
        (1, 0x28, Step::Store(0xff), 11),
        (1, 0x37, Step::Load, 12),
        (1, 0x37, Step::Store(0xff), 12),
        (1, 0x57, Step::Load, 0),
        (1, 0x57, Step::Store(0xff), 0),
    ] {
        let answer = step.by_effective(unit, storage, at::<F>(register, page, 1), Width::Byte);
        assert_eq!(rt; answer_number(&answer), number);
        assert_eq!(rt; unit.exceptions(), expected, "refusal {number}");
    }
}

// Other calls that are refused: segment register 16 and segment ID 4,096 with 3, real address 10000 with 7, and real page 32
// with 15.
fn refused_calls<F: PageForm, S: Storage>(
    rt: &impl Abort,
    unit: &mut MemoryUnit<F>,
    storage: &mut S,
    expected: Exceptions,
) {
    assert!(rt; unit.write_segment(16, ordinary(0, false)).is_err());
    assert!(rt; unit.write_segment(0, ordinary(4096, false)).is_err());
    assert!(rt; unit.page_mark(32).is_err());
    assert!(rt; unit.clear_page_mark(32).is_err());
    let outside = RealAddress { number: 0x1_0000 };
    let loaded = unit.load_real(storage, outside, Width::Byte);
    assert_eq!(rt; answer_number(&loaded), 7);
    let stored = unit.store_real(storage, outside, Width::Byte, 0);
    assert_eq!(rt; answer_number(&stored), 7);
    assert_eq!(rt; unit.exceptions(), expected);
}

// The refusals 3 to 7, 11, 12 and 15 leave the exception registers as they are: as power-on left them, and as a page fault
// did.
fn raises_nothing<F: PageForm + Copy, S: Storage, T: Storage>(
    rt: &impl Abort,
    form: F,
    storage: &mut S,
    short: &mut T,
) -> Result<(), Fail> {
    put_causes::<F, S>(rt, storage)?;
    let mut unit = unit_for_causes(form)?;
    refused_requests(rt, &mut unit, storage, short, Exceptions::none());
    refused_calls(rt, &mut unit, storage, Exceptions::none());
    let address = at::<F>(1, 0x22, PLACE);
    let loaded = unit.load(storage, address, Width::Halfword);
    assert_eq!(rt; answer_number(&loaded), 9);
    let after_fault = unit.exceptions();
    refused_requests(rt, &mut unit, storage, short, after_fault);
    refused_calls(rt, &mut unit, storage, after_fault);
    shows(rt, &unit, 0x0000_1008, address, true, "after a page fault");
    Ok(())
}

#[test]
fn refusals_that_raise_nothing(rt: HostRuntime) -> Result<(), Fail> {
    let mut bytes = zeros(rt.alloc())?;
    let mut less = vec![in rt.alloc(); 0u8; 65532]?;
    let mut short = RamBoard::new(&mut less);
    raises_nothing(&rt, Form2K, &mut RamBoard::new(&mut bytes), &mut short)?;
    raises_nothing(&rt, Form4K, &mut RamBoard::new(&mut bytes), &mut short)
}
