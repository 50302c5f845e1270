use crate::support::{NOTHING, accepted, at, first_is, ordinary, refused, unit_of, up_to, zeros};
use crate::tables::{first_word, keyed, put_table, small_table};
use boards::ram::RamBoard;
use lanes::width::Width;
use mmu::unit::MemoryUnit;
use paging::form::{Form2K, Form4K, PageForm};
use refusals::refusal::Refusal;
use std::process::Abort;
use std::test::Fail;
use storage::words::{ReadStorage, Storage};
use unit_state::answer::Compared;
use unit_state::answers::Answer;

// In an ordinary segment: the key of the page, the key bit K of the register, and whether loads and stores are permitted.
const RULES: [(u8, bool, bool, bool); 8] = [
    (0, false, true, true),
    (0, true, false, false),
    (1, false, true, true),
    (1, true, true, false),
    (2, false, true, true),
    (2, true, true, true),
    (3, false, true, false),
    (3, true, true, false),
];

// What an ordinary segment answers.
fn judged(permitted: bool, value: u32, compared: Compared) -> Answer {
    if permitted {
        accepted(value, compared)
    } else {
        refused(Refusal::ProtectionRefused, compared)
    }
}

// A unit that has segment 123 in register 2. Its transaction ID, unlike that of the page, makes no difference.
fn unit_with_key<F: PageForm + Copy>(form: F, k: bool) -> Result<MemoryUnit<F>, Fail> {
    let mut unit = unit_of(form, 16, 1)?;
    unit.write_segment(2, ordinary(0x123, k))?;
    unit.write_transaction(0xff);
    Ok(unit)
}

// Page 54 lies in real page 4. A place 100 bytes (hexadecimal) behind the start of a page is 64 words behind it. Pages 54 and
// 74 have one chain: 123 XOR 54 = 177 and 123 XOR 74 = 157 are 23 with 32 entries and 7 with 16. Page 74, of entry 7, stands
// in front. So a new unit finds page 54 by a walk that compares entry 7 and then entry 4, be the access permitted or not;
// after that by a hit, which compares nothing. A refused store leaves the word as it was.
fn keeps_to<F: PageForm + Copy, S: Storage>(
    rt: &impl Abort,
    form: F,
    storage: &mut S,
    rule: (u8, bool, bool, bool),
    case: &str,
) -> Result<(), Fail> {
    let (key, k, loads, stores) = rule;
    let pages = [(4, keyed(0x123, 0x54, key)), (7, keyed(0x123, 0x74, 2))];
    put_table::<F, S>(rt, storage, small_table::<F>(), &pages)?;
    let walked = up_to(2, 4);
    let word = first_word::<F>(4) | 64;
    let address = at::<F>(2, 0x54, 0x100);
    storage.write(word, 0x8111_2222, 15)?;
    let mut unit = unit_with_key(form, k)?;
    let answer = unit.load(storage, address, Width::Word);
    assert_eq!(rt; answer, judged(loads, 0x8111_2222, walked), "{case}");
    let answer = unit.store(storage, address, Width::Word, 0x9333_4444);
    assert_eq!(rt; answer, judged(stores, 0, NOTHING), "{case}");
    let kept = if stores { 0x9333_4444 } else { 0x8111_2222 };
    assert_eq!(rt; storage.read(word), Ok(kept), "{case}");
    let mut unit = unit_with_key(form, k)?;
    let answer = unit.store(storage, address, Width::Word, 0xa555_6666);
    assert_eq!(rt; answer, judged(stores, 0, walked), "{case}");
    let kept = if stores { 0xa555_6666 } else { kept };
    assert_eq!(rt; storage.read(word), Ok(kept), "{case}");
    let answer = unit.load(storage, address, Width::Word);
    assert_eq!(rt; answer, judged(loads, kept, NOTHING), "{case}");
    Ok(())
}

#[test]
fn keys_of_ordinary_segments(rt: HostRuntime) -> Result<(), Fail> {
    let mut bytes = zeros(rt.alloc())?;
    let mut board = RamBoard::new(&mut bytes);
    for rule in RULES {
        let (key, k, _, _) = rule;
        let case = format!(in rt.alloc(); "2K, key {key}, K {k}")?;
        keeps_to(&rt, Form2K, &mut board, rule, &case)?;
        let case = format!(in rt.alloc(); "4K, key {key}, K {k}")?;
        keeps_to(&rt, Form4K, &mut board, rule, &case)?;
    }
    Ok(())
}

// The look-aside buffers do not keep K. Registers 2 and 3 have one segment ID, and K 0 and 1: what one of them found, the
// other hits, and is judged by its own K. Page 50 has key 00 and page 51 key 01; anchors 123 XOR 50 and 123 XOR 51 differ, so
// each chain has one entry.
fn two_registers<F: PageForm + Copy, S: Storage>(
    rt: &impl Abort,
    form: F,
    storage: &mut S,
) -> Result<(), Fail> {
    let pages = [(5, keyed(0x123, 0x50, 0)), (6, keyed(0x123, 0x51, 1))];
    put_table::<F, S>(rt, storage, small_table::<F>(), &pages)?;
    let mut unit = unit_with_key(form, false)?;
    unit.write_segment(3, ordinary(0x123, true))?;
    for (register, page, permitted, compared) in [
        (2, 0x50, true, first_is(5)),
        (3, 0x50, false, NOTHING),
        (2, 0x50, true, NOTHING),
        (3, 0x51, true, first_is(6)),
        (2, 0x51, true, NOTHING),
    ] {
        let answer = unit.load(storage, at::<F>(register, page, 0), Width::Byte);
        assert_eq!(rt;
            answer,
            judged(permitted, 0, compared),
            "register {register}"
        );
    }
    for (register, page, permitted) in [
        (2, 0x50, true),
        (3, 0x50, false),
        (2, 0x51, true),
        (3, 0x51, false),
    ] {
        let answer = unit.store(storage, at::<F>(register, page, 8), Width::Byte, 7);
        assert_eq!(rt;
            answer,
            judged(permitted, 0, NOTHING),
            "register {register}"
        );
    }
    Ok(())
}

#[test]
fn two_registers_with_one_segment_id(rt: HostRuntime) -> Result<(), Fail> {
    two_registers(&rt, Form2K, &mut RamBoard::new(&mut zeros(rt.alloc())?))?;
    two_registers(&rt, Form4K, &mut RamBoard::new(&mut zeros(rt.alloc())?))
}
