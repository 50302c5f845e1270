use crate::rounds::{ROUNDS, byte, chain_halfword, halfword, word};
use crate::support::{by_form, first_word};
use paging::form::PageForm;

// A word of page 10 + k of segment 2, by its number in the page: word 4 r is what round r stored. It is the whole word, and in an
// odd round the halfword is its lower half.
fn in_own_page(k: u32, place: u32, before: u32) -> u32 {
    let r = place / 4;
    if place % 4 != 0 || r >= ROUNDS || r % 4 != k {
        return before;
    }
    if r % 2 == 0 {
        word(r)
    } else {
        word(r) & 0xffff_0000 | halfword(r)
    }
}

// A word of the special page: a line has 32 words in 2K and 64 in 4K. Rounds r and r + 16 stored to line r if that is even: to
// its first byte and to its last.
fn in_special_page<F: PageForm>(place: u32, before: u32) -> u32 {
    let r = by_form::<F>(place / 32, place / 64);
    let in_line = by_form::<F>(place % 32, place % 64);
    if r % 2 == 1 {
        before
    } else if in_line == 0 {
        before & 0x00ff_ffff | byte(r) << 24
    } else if in_line == by_form::<F>(31, 63) {
        before & 0xffff_ff00 | byte(r | 16)
    } else {
        before
    }
}

// A word of a page of the chain of three, with t before it: round r stored to the lower half of word r, if r mod 3 is t.
fn in_chain(t: u32, place: u32, before: u32) -> u32 {
    if place < ROUNDS && place % 3 == t {
        before & 0xffff_0000 | chain_halfword(place)
    } else {
        before
    }
}

// What the rounds leave of word n, by what it was before: real pages 4 to 7, 8, and 9 to 11 were stored to.
pub(crate) fn left_of<F: PageForm>(n: u32, before: u32) -> u32 {
    let page = by_form::<F>(n >> 9, n >> 10);
    let place = n ^ first_word::<F>(page);
    match page {
        4..=7 => in_own_page(page - 4, place, before),
        8 => in_special_page::<F>(place, before),
        9..=11 => in_chain(page - 9, place, before),
        _ => before,
    }
}
