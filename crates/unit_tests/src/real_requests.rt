use crate::support::{NOTHING, accepted, real_at, refused, unit_of, zeros};
use boards::ram::RamBoard;
use lanes::width::Width;
use paging::form::{Form2K, Form4K, PageForm};
use refusals::refusal::Refusal;
use std::process::Abort;
use std::test::Fail;
use storage::words::{ReadStorage, Storage};
use unit_state::answers::{answer_number, answer_value};

// An accepted request has the number 0 and its own value, a refused one its refusal's number and the value 0.
#[test]
fn answers_have_a_number_and_a_value(rt: HostRuntime) {
    for (answer, number, value) in [
        (accepted(0, NOTHING), 0, 0),
        (accepted(0xffff_ffff, NOTHING), 0, 0xffff_ffff),
        (refused(Refusal::SizeDiffers, NOTHING), 4, 0),
        (refused(Refusal::ValueTooWide, NOTHING), 5, 0),
        (refused(Refusal::RealAddressOutside, NOTHING), 7, 0),
    ] {
        assert_eq!(rt; answer_number(&answer), number);
        assert_eq!(rt; answer_value(&answer), value);
    }
}

// Loads from the word 81 B2 C3 D4 (hexadecimal) at address 100. Its first byte is the highest; a byte or halfword is extended
// by zeros, though its highest bit is on; an address inside a halfword or a word counts as its start.
fn loads<F: PageForm + Copy, S: Storage>(
    rt: &impl Abort,
    form: F,
    storage: &mut S,
) -> Result<(), Fail> {
    let mut unit = unit_of(form, 16, 0)?;
    storage.write(0x40, 0x81b2_c3d4, 15)?;
    for (address, byte, halfword) in [
        (0x100, 0x81, 0x81b2),
        (0x101, 0xb2, 0x81b2),
        (0x102, 0xc3, 0xc3d4),
        (0x103, 0xd4, 0xc3d4),
    ] {
        for (width, value) in [
            (Width::Byte, byte),
            (Width::Halfword, halfword),
            (Width::Word, 0x81b2_c3d4),
        ] {
            let answer = unit.load_real(storage, real_at(address), width);
            assert_eq!(rt; answer, accepted(value, NOTHING), "address {address}");
        }
    }
    Ok(())
}

#[test]
fn loads_of_each_width_at_each_offset(rt: HostRuntime) -> Result<(), Fail> {
    let mut bytes = zeros(rt.alloc())?;
    loads(&rt, Form2K, &mut RamBoard::new(&mut bytes))?;
    loads(&rt, Form4K, &mut RamBoard::new(&mut bytes))
}

// Stores over the word 11 22 33 44 at address 100 and looks at it and at its neighbours, which stay.
fn stores<F: PageForm + Copy, S: Storage>(
    rt: &impl Abort,
    form: F,
    storage: &mut S,
) -> Result<(), Fail> {
    let mut unit = unit_of(form, 16, 0)?;
    for (width, value, words) in [
        (
            Width::Byte,
            0xee,
            [0xee22_3344, 0x11ee_3344, 0x1122_ee44, 0x1122_33ee],
        ),
        (
            Width::Halfword,
            0xbeef,
            [0xbeef_3344, 0xbeef_3344, 0x1122_beef, 0x1122_beef],
        ),
        (
            Width::Word,
            0xcafe_f00d,
            [0xcafe_f00d, 0xcafe_f00d, 0xcafe_f00d, 0xcafe_f00d],
        ),
    ] {
        for (address, word) in (0x100u32..0x104).zip(words) {
            for n in 0x3f..0x42 {
                storage.write(n, 0x1122_3344, 15)?;
            }
            assert_eq!(rt;
                unit.store_real(storage, real_at(address), width, value),
                accepted(0, NOTHING)
            );
            assert_eq!(rt; storage.read(0x3f), Ok(0x1122_3344));
            assert_eq!(rt; storage.read(0x40), Ok(word), "address {address}");
            assert_eq!(rt; storage.read(0x41), Ok(0x1122_3344));
        }
    }
    Ok(())
}

#[test]
fn stores_of_each_width_at_each_offset(rt: HostRuntime) -> Result<(), Fail> {
    let mut bytes = zeros(rt.alloc())?;
    stores(&rt, Form2K, &mut RamBoard::new(&mut bytes))?;
    stores(&rt, Form4K, &mut RamBoard::new(&mut bytes))
}

// The last word of 64 KiB is at FFFC. Its last byte, at FFFF, counts as the halfword at FFFE and as the word. The byte at
// 10000 lies outside, and so does every one beyond.
fn ends<F: PageForm + Copy, S: Storage>(
    rt: &impl Abort,
    form: F,
    storage: &mut S,
) -> Result<(), Fail> {
    let mut unit = unit_of(form, 16, 0)?;
    for (width, value, word) in [
        (Width::Word, 0x0102_0304, 0x0102_0304),
        (Width::Byte, 0xaa, 0x0102_03aa),
        (Width::Halfword, 0xbbcc, 0x0102_bbcc),
    ] {
        assert_eq!(rt;
            unit.store_real(storage, real_at(0xffff), width, value),
            accepted(0, NOTHING)
        );
        assert_eq!(rt;
            unit.load_real(storage, real_at(0xffff), width),
            accepted(value, NOTHING)
        );
        assert_eq!(rt; storage.read(0x3fff), Ok(word));
        for address in [0x1_0000, 0x1_0001, 0xffff_fffc, 0xffff_ffff] {
            let stored = unit.store_real(storage, real_at(address), width, 0);
            assert_eq!(rt; stored, refused(Refusal::RealAddressOutside, NOTHING));
            let loaded = unit.load_real(storage, real_at(address), width);
            assert_eq!(rt; loaded, refused(Refusal::RealAddressOutside, NOTHING));
        }
        assert_eq!(rt; storage.read(0x3fff), Ok(word));
        assert_eq!(rt; storage.read(0), Ok(0));
    }
    Ok(())
}

#[test]
fn requests_at_the_end_of_the_storage(rt: HostRuntime) -> Result<(), Fail> {
    let mut bytes = zeros(rt.alloc())?;
    ends(&rt, Form2K, &mut RamBoard::new(&mut bytes))?;
    ends(&rt, Form4K, &mut RamBoard::new(&mut bytes))
}

// A byte holds up to FF, a halfword up to FFFF and a word every value. What is too wide is refused and not stored: the word
// keeps what it held.
#[test]
fn values_as_wide_as_their_width(rt: HostRuntime) -> Result<(), Fail> {
    let mut bytes = zeros(rt.alloc())?;
    let mut board = RamBoard::new(&mut bytes);
    let mut unit = unit_of(Form2K, 16, 0)?;
    for (width, value, number, word) in [
        (Width::Byte, 0xff, 0, 0xff22_3344),
        (Width::Byte, 0x100, 5, 0x1122_3344),
        (Width::Byte, 0xffff_ffff, 5, 0x1122_3344),
        (Width::Halfword, 0xffff, 0, 0xffff_3344),
        (Width::Halfword, 0x1_0000, 5, 0x1122_3344),
        (Width::Halfword, 0xffff_ffff, 5, 0x1122_3344),
        (Width::Word, 0xffff_ffff, 0, 0xffff_ffff),
    ] {
        board.write(0x40, 0x1122_3344, 15)?;
        let answer = unit.store_real(&mut board, real_at(0x100), width, value);
        assert_eq!(rt; answer_number(&answer), number, "value {value}");
        assert_eq!(rt; board.read(0x40), Ok(word), "value {value}");
    }
    Ok(())
}

// The storage has to have exactly the plan's 2^16 bytes, which are 16,384 words: one word less or more is refused. Bytes
// behind the last whole word are no word.
#[test]
fn storages_of_another_size(rt: HostRuntime) -> Result<(), Fail> {
    for (length, number) in [(65532, 4), (65535, 4), (65536, 0), (65539, 0), (65540, 4)] {
        let mut bytes = vec![in rt.alloc(); 0u8; length]?;
        let mut board = RamBoard::new(&mut bytes);
        let mut unit = unit_of(Form4K, 16, 0)?;
        let stored = unit.store_real(&mut board, real_at(0), Width::Byte, 1);
        assert_eq!(rt; answer_number(&stored), number, "{length} bytes");
        let loaded = unit.load_real(&board, real_at(0), Width::Byte);
        assert_eq!(rt; answer_number(&loaded), number, "{length} bytes");
        let first = if number == 0 { 0x0100_0000 } else { 0 };
        assert_eq!(rt; board.read(0), Ok(first));
    }
    Ok(())
}

// Of several reasons to refuse, the first counts: the value too wide (5), then the size (4), then the address (7). A load has
// no value, so it begins with the size.
#[test]
fn the_first_reason_counts(rt: HostRuntime) -> Result<(), Fail> {
    for (length, value, address, stored, loaded) in [
        (65536, 0x100, 0xffff, 5, 0),
        (65536, 0x100, 0x1_0000, 5, 7),
        (65536, 0xff, 0x1_0000, 7, 7),
        (65532, 0x100, 0xffff, 5, 4),
        (65532, 0x100, 0x1_0000, 5, 4),
        (65532, 0xff, 0xffff, 4, 4),
        (65540, 0xff, 0x1_0000, 4, 4),
    ] {
        let mut bytes = vec![in rt.alloc(); 0u8; length]?;
        let mut board = RamBoard::new(&mut bytes);
        let mut unit = unit_of(Form2K, 16, 0)?;
        let store = unit.store_real(&mut board, real_at(address), Width::Byte, value);
        assert_eq!(rt; answer_number(&store), stored, "store at {address}");
        let load = unit.load_real(&board, real_at(address), Width::Byte);
        assert_eq!(rt; answer_number(&load), loaded, "load at {address}");
    }
    Ok(())
}
