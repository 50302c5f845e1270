use crate::script::{Line, Script, accepted, done, has_mark, loads, refused, shows, stores};
use crate::support::{
    LOADED, NO_CAUSES, NOTHING, STORED, UNMARKED, at, by_form, first_word, none_at, up_to,
    walked_if,
};
use crate::tables::entry_count;
use exceptions::registers::{Causes, Exceptions};
use lanes::width::Width;
use paging::address::EffectiveAddress;
use paging::form::PageForm;
use refusals::refusal::Refusal;
use runs::call::{Call, Reply};
use std::alloc::{AllocError, Global};

// The long run, in rounds r from 0 to 31. What a call does and what it is answered follows from r alone.
//
// Which requests walk: the class of a page is the lowest digit of its number. Pages 10 to 13 of segment 2 have classes 0 to 3,
// and page 5 of ABC has class 5. So the buffers keep these five: the first request for each walks, and the first after a purge
// that takes it. Pages 16, 36 and 56 of segment 2 all have class 6, whose two entries are replaced in turn. Each round uses one
// of the three, in turn, which is gone again when its turn comes: so the first request of each round walks to it.
pub(crate) const ROUNDS: u32 = 32;

// What round r stores: a word of four different bytes, a halfword over its lower half, a byte in a line, and a halfword in the
// chain of three.
pub(crate) fn word(r: u32) -> u32 {
    0xc0de_0000 | r << 8 | (r ^ 0xff)
}

pub(crate) fn halfword(r: u32) -> u32 {
    0x5500 | r
}

pub(crate) fn byte(r: u32) -> u32 {
    0x80 | r
}

pub(crate) fn chain_halfword(r: u32) -> u32 {
    0x4000 | r
}

// Round r stores a word to page 10 + k, where k is r mod 4, at place 16 r. Rounds 0 to 3 walk to these pages. Round 13 does,
// since page 11 is purged after round 11, and so do rounds 16 to 19, after a purge of segment 2, and 24 to 27, after one of all.
//
// Register 2 loads the third byte of the word, which is r. Then it stores a halfword over the lower half. If k is even that is
// refused (13), and the half stays what it was. If k is odd it is accepted. The lowest bit of the address counts as zero. The
// real page, 4 + k, is then marked as stored to; after its mark is cleared, a load leaves the mark of loads.
fn own_page<F: PageForm>(r: u32) -> [Line; 7] {
    let page = 0x10 + r % 4;
    let real = 4 + r % 4;
    let place = r << 4;
    let walks = r / 4 == 0 || r == 13 || r / 4 == 4 || r / 4 == 6;
    let compared = walked_if(walks, real as u16);
    let (over, half) = if r % 2 == 0 {
        let denied = refused(Refusal::ProtectionRefused, NOTHING);
        (denied, word(r) & 0xffff)
    } else {
        (accepted(0, NOTHING), halfword(r))
    };
    let third = at::<F>(2, page, place | 2);
    let fourth = at::<F>(2, page, place | 3);
    [
        stores(
            at::<F>(1, page, place),
            Width::Word,
            word(r),
            accepted(0, compared),
        ),
        loads(third, Width::Byte, accepted(r, NOTHING)),
        stores(fourth, Width::Halfword, halfword(r), over),
        has_mark(real, STORED),
        done(Call::ClearMark(real)),
        loads(
            at::<F>(1, page, place | 3),
            Width::Halfword,
            accepted(half, NOTHING),
        ),
        has_mark(real, LOADED),
    ]
}

// The place that round r uses in the special page: in line r mod 16, the first byte up to round 15 and then the last. A line has
// 128 bytes in 2K and 256 in 4K.
fn line_place<F: PageForm>(r: u32) -> u32 {
    let line = by_form::<F>(r % 16 << 7, r % 16 << 8);
    if r < 16 {
        line
    } else {
        line | by_form::<F>(127, 255)
    }
}

// The special page: a byte is stored in an even line, and refused in an odd one (14). What is loaded then is that byte or the one
// that was there. The first byte of the word with number n is the higher byte of n, and its last byte the lower. Round 0 walks,
// and so do round 20, after a purge of this segment, and 24, after one of all.
fn special_page<F: PageForm>(r: u32) -> [Line; 2] {
    let address = at::<F>(3, 0x05, line_place::<F>(r));
    let n = first_word::<F>(8) | line_place::<F>(r) >> 2;
    let there = if r < 16 { n >> 8 } else { n & 0xff };
    let compared = walked_if(r == 0 || r == 20 || r == 24, 8);
    let (answer, value) = if r % 2 == 0 {
        (accepted(0, compared), byte(r))
    } else {
        (refused(Refusal::LockRefused, compared), there)
    };
    [
        stores(address, Width::Byte, byte(r), answer),
        loads(address, Width::Byte, accepted(value, NOTHING)),
    ]
}

// The address that round r uses through barred register 8.
fn barred_address<F: PageForm>(r: u32) -> EffectiveAddress {
    at::<F>(8, 0x10, r << 2 | 1)
}

// Left by a round: first the barred segment, by a load if r is even, and then the page fault, so that M is on.
fn left_by<F: PageForm>(r: u32) -> Exceptions {
    Exceptions {
        causes: Causes {
            segment_barred: true,
            page_fault: true,
            ..NO_CAUSES
        },
        multiple: true,
        load: r % 2 == 0,
        address: barred_address::<F>(r),
        locked: true,
    }
}

// What the round before left, and from this round P if k is even, as r is, or else D. In round 0 it is P alone, by the store
// through register 2 at place 3 of page 10.
fn with_denied<F: PageForm>(r: u32) -> Exceptions {
    if r == 0 {
        return Exceptions {
            causes: Causes {
                protection: true,
                ..NO_CAUSES
            },
            locked: true,
            ..none_at(at::<F>(2, 0x10, 3))
        };
    }
    let before = left_by::<F>(r - 1);
    Exceptions {
        causes: Causes {
            protection: r % 2 == 0,
            lock: r % 2 == 1,
            ..before.causes
        },
        ..before
    }
}

// Refused requests, between reads of the exceptions. A clear leaves the address. The barred segment (8) comes before its page,
// which is in the table. A page fault (9) is at an empty anchor: page 1F of segment 2 has 2 XOR 1F, which is 1D, and so anchor 29
// or 13. Or it is behind the last entry of the chain of three: page 76 has 2 XOR 76, which is 74, and so anchor 20 or 4. An
// absent segment (6) and a value that is too wide (5), which comes before the absent segment, raise nothing.
fn refused_ones<F: PageForm>(r: u32) -> [Line; 8] {
    let place = r << 2;
    let barred = refused(Refusal::SegmentBarred, NOTHING);
    let too_wide = refused(Refusal::ValueTooWide, NOTHING);
    let absent = refused(Refusal::SegmentAbsent, NOTHING);
    let by_chain = refused(Refusal::PageFault, up_to(3, 11));
    let by_anchor = refused(Refusal::PageFault, NOTHING);
    let (first, second, third) = if r % 2 == 0 {
        (
            loads(barred_address::<F>(r), Width::Word, barred),
            loads(at::<F>(1, 0x1f, place), Width::Halfword, by_anchor),
            stores(at::<F>(1, 0x10, place), Width::Byte, 0x100, too_wide),
        )
    } else {
        (
            stores(barred_address::<F>(r), Width::Word, r, barred),
            stores(at::<F>(2, 0x76, place), Width::Byte, r, by_chain),
            stores(at::<F>(4, 0x10, place), Width::Halfword, 0x1_0000, too_wide),
        )
    };
    [
        shows(with_denied::<F>(r)),
        done(Call::ClearExceptions),
        shows(none_at(with_denied::<F>(r).address)),
        first,
        second,
        loads(at::<F>(4, 0x10, place), Width::Byte, absent),
        third,
        shows(left_by::<F>(r)),
    ]
}

// The chain of three: round r uses its entry r mod 3, behind so many others. A halfword is stored over the lower half of word r
// of the page, and register 2 loads the word, whose upper half is its number. The lowest two bits of its address count as zero.
fn in_chain<F: PageForm>(r: u32) -> [Line; 2] {
    let page = 0x16 + (r % 3 << 5);
    let behind = (r % 3) as u16;
    let n = first_word::<F>(9 + r % 3) | r;
    let whole = n << 16 | chain_halfword(r);
    [
        stores(
            at::<F>(1, page, r << 2 | 2),
            Width::Halfword,
            chain_halfword(r),
            accepted(0, up_to(behind + 1, behind + 9)),
        ),
        loads(
            at::<F>(2, page, r << 2 | 1),
            Width::Word,
            accepted(whole, NOTHING),
        ),
    ]
}

// The mark of real page r mod 16. The page of this round was loaded from since its mark was cleared. Rounds 0, 0, 1 and 2 stored
// to pages 8 to 11, whose marks are never cleared. Nothing uses the others: a walk marks no page of the table. Pages that the
// plan has not, from 32 or 16 on, have no mark (15).
fn marks<F: PageForm>(r: u32) -> [Line; 3] {
    let mark = match r % 16 {
        4..=7 => LOADED,
        8..=11 => STORED,
        _ => UNMARKED,
    };
    let outside = u32::from(entry_count::<F>()) | r << 5;
    [
        has_mark(r % 16, mark),
        (
            Call::ReadMark(outside),
            Reply::Mark(Err(Refusal::PageMarkOutside)),
        ),
        (
            Call::ClearMark(outside),
            Reply::Cleared(Err(Refusal::PageMarkOutside)),
        ),
    ]
}

// Purges behind some rounds: of page 11 through the other register with its segment, of segment 2, of ABC, and of all. Register
// 16 does not exist (3).
fn add_purges<F: PageForm>(script: &mut Script, r: u32) -> Result<(), AllocError> {
    match r {
        11 => script.add(&[done(Call::PurgePage(at::<F>(2, 0x11, 0x7ff)))]),
        15 => script.add(&[
            done(Call::PurgeSegment(2)),
            (
                Call::PurgeSegment(16),
                Reply::Cleared(Err(Refusal::RegisterOutside)),
            ),
        ]),
        19 => script.add(&[done(Call::PurgeSegment(3))]),
        23 => script.add(&[done(Call::PurgeAll)]),
        _ => Ok(()),
    }
}

pub(crate) fn add_rounds<F: PageForm>(script: &mut Script) -> Result<(), AllocError> {
    for r in 0..ROUNDS {
        script.add(&own_page::<F>(r))?;
        script.add(&special_page::<F>(r))?;
        script.add(&refused_ones::<F>(r))?;
        script.add(&in_chain::<F>(r))?;
        script.add(&marks::<F>(r))?;
        add_purges::<F>(script, r)?;
    }
    Ok(())
}
