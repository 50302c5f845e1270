use crate::support::{ABSENT, accepted, at, first_is, ordinary, unit_of, zeros};
use crate::tables::{first_word, keyed, put_table, small_table};
use boards::ram::RamBoard;
use exceptions::registers::Exceptions;
use lanes::width::Width;
use mmu::unit::MemoryUnit;
use page_table::entry::PageEntry;
use paging::form::{Form2K, Form4K, PageForm};
use protection::register::SegmentRegister;
use refusals::refusal::Refusal;
use std::alloc::Global;
use std::process::Abort;
use std::test::Fail;
use storage::words::Storage;

// Sixteen registers that all differ: the four bits of n are the four flags, in every combination. The segment IDs go up to
// FFF, which is 4,095.
fn register_of(n: u16) -> SegmentRegister {
    SegmentRegister {
        present: n & 1 == 1,
        barred: n & 2 == 2,
        segment: 0xff0 | n,
        special: n & 4 == 4,
        key: n & 8 == 8,
    }
}

// Checks that each register holds what it was given, the last one too, which has number 15.
fn hold_their_own<F: PageForm>(rt: &impl Abort, unit: &MemoryUnit<F>) {
    for n in 0u16..16 {
        assert_eq!(rt;
            unit.segment(u32::from(n)),
            Ok(register_of(n)),
            "register {n}"
        );
    }
}

// Registers 16 and above, and segment IDs 4,096 and above, are refused with 3, and nothing changes.
fn refuses_others<F: PageForm>(rt: &impl Abort, unit: &mut MemoryUnit<F>) {
    let outside = Err(Refusal::RegisterOutside);
    assert_eq!(rt; Refusal::RegisterOutside.number(), 3);
    for (number, segment) in [
        (16, 0),
        (17, 0xfff),
        (31, 0),
        (0xffff_ffff, 0),
        (0, 4096),
        (15, 4096),
        (15, 0xffff),
        (16, 4096),
    ] {
        let written = unit.write_segment(number, ordinary(segment, true));
        assert_eq!(rt; written, Err(Refusal::RegisterOutside), "register {number}");
        hold_their_own(rt, unit);
        assert_eq!(rt; unit.exceptions(), Exceptions::none());
    }
    for number in [16, 17, 0xffff_ffff] {
        assert_eq!(rt; unit.segment(number), outside);
    }
}

// After power-on each segment is absent, the transaction ID is 0 and the long-stop bit off. What is written is read back, and
// none alters another.
fn keeps_registers<F: PageForm + Copy>(rt: &impl Abort, form: F) -> Result<(), Fail> {
    let mut unit = unit_of(form, 16, 1)?;
    assert_eq!(rt; unit.transaction(), 0);
    assert_eq!(rt; unit.long_stop(), false);
    for n in 0u16..16 {
        let number = u32::from(n);
        assert_eq!(rt; unit.segment(number), Ok(ABSENT));
        assert_eq!(rt; unit.write_segment(number, register_of(n)), Ok(()));
    }
    hold_their_own(rt, &unit);
    refuses_others(rt, &mut unit);
    for transaction in [0xff, 0x80, 0x01, 0x00, 0x5a] {
        for long_stop in [true, false, true] {
            unit.write_transaction(transaction);
            unit.write_long_stop(long_stop);
            assert_eq!(rt; unit.transaction(), transaction);
            assert_eq!(rt; unit.long_stop(), long_stop);
        }
    }
    hold_their_own(rt, &unit);
    assert_eq!(rt; unit.write_segment(15, ABSENT), Ok(()));
    assert_eq!(rt; unit.segment(15), Ok(ABSENT));
    assert_eq!(rt; unit.segment(14), Ok(register_of(14)));
    Ok(())
}

#[test]
fn registers_read_back_what_was_written(rt: HostRuntime) -> Result<(), Fail> {
    keeps_registers(&rt, Form2K)?;
    keeps_registers(&rt, Form4K)
}

// The highest four bits of an effective address are the number of its register. Register n has segment ID n, whose page 0
// lies in real page n XOR 5 and begins with the word 80000000 + n. The anchors are n, so each chain has one entry.
fn by_register<F: PageForm + Copy, S: Storage>(
    rt: &impl Abort,
    heap: Global,
    form: F,
    storage: &mut S,
) -> Result<(), Fail> {
    let mut unit = unit_of(form, 16, 1)?;
    let pages: Vec<(u16, PageEntry)> = (0u16..16).map(|n| (n ^ 5, keyed(n, 0, 2))).collect(heap)?;
    put_table::<F, S>(rt, storage, small_table::<F>(), &pages)?;
    for n in 0u16..16 {
        let number = u32::from(n);
        storage.write(first_word::<F>(number ^ 5), 0x8000_0000 | number, 15)?;
        unit.write_segment(number, ordinary(n, false))?;
    }
    for n in 0u16..16 {
        let number = u32::from(n);
        let answer = unit.load(storage, at::<F>(number, 0, 0), Width::Word);
        assert_eq!(rt; answer, accepted(0x8000_0000 | number, first_is(n ^ 5)));
    }
    Ok(())
}

#[test]
fn each_register_has_its_own_addresses(rt: HostRuntime) -> Result<(), Fail> {
    let heap = rt.alloc();
    by_register(&rt, heap, Form2K, &mut RamBoard::new(&mut zeros(heap)?))?;
    by_register(&rt, heap, Form4K, &mut RamBoard::new(&mut zeros(heap)?))
}
