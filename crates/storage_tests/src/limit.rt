// A pair has at most 4,194,304 words, however many its storages have.
ghost use Rattle.std.specs.Prelude.{◌≤◌};
ghost use Rattle.storage_tests.specs.Made.{made_words, made_bounded};

use crate::cases::number;
use boards::interleaved::Interleaved;
use boards::ram::RamBoard;
use boards::stacked::Stacked;
use refusals::refusal::Refusal;
use std::process::Abort;
use std::test::Fail;
use storage::words::{ReadStorage, Storage};

// Words that need no memory: word n is base + n.
#[derive(Drop)]
struct Made {
    count: u32,
    base: u32,
    ghost short: { count ≤ 4194304 },
    ghost low: { base ≤ 16777216 },
}

#[tactic(auto, using(storage::proofs::Tabulated::tables))]
impl ReadStorage for Made {
    ghost words = { λ s. made_words s.count s.base };

    ghost bounded = { λ s. made_bounded s.count s.base s.short };

    fn count(&self) -> u32 {
        self.count
    }

    fn read(&self, n: u32) -> Result<u32, Refusal> {
        if n >= self.count {
            return Err(Refusal::WordOutside);
        }
        Ok(self.base + n)
    }
}

// Its count of words, its last word, and a refusal behind it.
fn ends<S: ReadStorage>(rt: &impl Abort, storage: &S, count: u32, last: u32) {
    assert!(rt; 0 < count);
    assert_eq!(rt; storage.count(), count);
    assert_eq!(rt; storage.read(count - 1), Ok(last));
    assert_eq!(rt; storage.read(count), Err(Refusal::WordOutside));
}

// Storages of so many words; the words of the first are their numbers, and those of the second 16,777,216 more.
fn counted(rt: &impl Abort, first: u32, second: u32) -> (Made, Made) {
    assert!(rt; first <= 4_194_304 && second <= 4_194_304);
    (
        Made {
            count: first,
            base: 0,
        },
        Made {
            count: second,
            base: 16_777_216,
        },
    )
}

// Twice the smaller count, but no more than 4,194,304. The last word is an odd one, so it is the second's, at half its
// number: 16,777,216 + count / 2 - 1.
#[test]
fn interleaved_counts(rt: HostRuntime) {
    // the counts of the first and of the second, and the count and the last word of the pair
    let cases = [
        (4_194_304u32, 4_194_304u32, 4_194_304u32, 18_874_367u32),
        (3_000_000, 3_000_000, 4_194_304, 18_874_367),
        (2_097_153, 2_097_153, 4_194_304, 18_874_367),
        (2_097_152, 2_097_152, 4_194_304, 18_874_367),
        (2_097_153, 2_097_152, 4_194_304, 18_874_367),
        (2_097_151, 4_194_304, 4_194_302, 18_874_366),
        (4_194_304, 2_097_151, 4_194_302, 18_874_366),
        (4_194_304, 1, 2, 16_777_216),
    ];
    for (first, second, count, last) in cases {
        let (one, other) = counted(&rt, first, second);
        ends(&rt, &Interleaved::new(one, other), count, last);
    }
}

// The counts together, but no more than 4,194,304. The last word is the second's at count - 1 - (the first's count), or
// the first's own where that one has them all.
#[test]
fn stacked_counts(rt: HostRuntime) {
    // the counts of the first and of the second, and the count and the last word of the pair
    let cases = [
        (4_194_304u32, 4_194_304u32, 4_194_304u32, 4_194_303u32),
        (4_194_304, 0, 4_194_304, 4_194_303),
        (0, 4_194_304, 4_194_304, 20_971_519),
        (4_194_303, 1, 4_194_304, 16_777_216),
        (4_194_303, 4_194_304, 4_194_304, 16_777_216),
        (3_000_000, 3_000_000, 4_194_304, 17_971_519),
        (2_097_153, 2_097_152, 4_194_304, 18_874_366),
        (2_097_152, 2_097_152, 4_194_304, 18_874_367),
        (2_097_152, 2_097_151, 4_194_303, 18_874_366),
    ];
    for (first, second, count, last) in cases {
        let (one, other) = counted(&rt, first, second);
        ends(&rt, &Stacked::new(one, other), count, last);
    }
}

// Pairs of pairs stop there too: two full pairs stacked are the first of them, and interleaved the lower halves of both.
#[test]
fn pairs_of_full_pairs(rt: HostRuntime) {
    let (a, b) = counted(&rt, 4_194_304, 4_194_304);
    let (c, d) = counted(&rt, 4_194_304, 4_194_304);
    // the last word of an interleaved pair is word 2,097,151 of its second
    ends(
        &rt,
        &Stacked::new(Interleaved::new(a, b), Interleaved::new(c, d)),
        4_194_304,
        18_874_367,
    );
    let (a, b) = counted(&rt, 2_097_152, 2_097_152);
    let (c, d) = counted(&rt, 1_048_576, 3_145_728);
    // the last word is word 2,097,151 of the second stacked pair, so word 1,048,575 of that one's second
    ends(
        &rt,
        &Interleaved::new(Stacked::new(a, b), Stacked::new(c, d)),
        4_194_304,
        17_825_791,
    );
}

// A write to the last word below the limit is accepted, one behind it refused, though the storages have more words.
fn last_write<S: Storage>(rt: &impl Abort, storage: &mut S) {
    assert_eq!(rt; number(storage.write(4_194_304, 0x01020304, 15)), 16);
    assert_eq!(rt; number(storage.write(4_194_304, 0x01020304, 16)), 16);
    assert_eq!(rt; number(storage.write(4_194_303, 0x01020304, 16)), 17);
    assert_eq!(rt; number(storage.write(4_194_303, 0x01020304, 15)), 0);
    assert_eq!(rt; storage.read(4_194_303), Ok(0x01020304));
}

// Over two boards of 12 MiB, which are 3,145,728 words each.
#[test]
fn writes_at_the_limit(rt: HostRuntime) -> Result<(), Fail> {
    let mut first = vec![in rt.alloc(); 0u8; 12_582_912]?;
    let mut second = vec![in rt.alloc(); 0u8; 12_582_912]?;
    // the last word is word 2,097,151 of the second, which begins at byte 8,388,604
    last_write(
        &rt,
        &mut Interleaved::new(RamBoard::new(&mut first), RamBoard::new(&mut second)),
    );
    // the last word is word 1,048,575 of the second, which begins at byte 4,194,300
    last_write(
        &rt,
        &mut Stacked::new(RamBoard::new(&mut first), RamBoard::new(&mut second)),
    );
    assert!(rt; second.len() == 12_582_912);
    assert_eq!(rt;
        &second[8_388_600..8_388_612],
        [0u8, 0, 0, 0, 1, 2, 3, 4, 0, 0, 0, 0].as_slice()
    );
    assert_eq!(rt;
        &second[4_194_296..4_194_308],
        [0u8, 0, 0, 0, 1, 2, 3, 4, 0, 0, 0, 0].as_slice()
    );
    Ok(())
}
