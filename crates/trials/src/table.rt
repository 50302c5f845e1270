ghost use Rattle.std.specs.Prelude.{◌≡◌};
ghost use Rattle.trials.specs.Table.{trials, StarredStand};

use crate::bench::{BenchEntry, BenchRequest, Spot, Target, Trial};
use lanes::width::Width;
use protection::access_type::AccessType;
use protection::register::SegmentRegister;

// Macros, and no `..PLAIN` or `..USUAL`: with these the proof of `all_trials` runs out of memory.

// Register 1: the barred, the special and the key bit.
macro_rules! register {
    ($barred:expr, $special:expr, $key:expr) => {
        SegmentRegister {
            present: true,
            barred: $barred,
            segment: 5,
            special: $special,
            key: $key,
        }
    };
}

const PLAIN: SegmentRegister = register!(false, false, false);

const BARRED: SegmentRegister = register!(true, false, false);

const KEYED: SegmentRegister = register!(false, false, true);

const SPECIAL: SegmentRegister = register!(false, true, false);

// Entry 9 with the tag of page 6, the last of its chain: key, write bit, transaction ID, lock bits.
macro_rules! entry {
    ($key:expr, $write:expr, $transaction:expr, $locks:expr) => {
        BenchEntry {
            key: $key,
            page: 6,
            last: true,
            write: $write,
            transaction: $transaction,
            locks: $locks,
        }
    };
}

// Entry 9 as most trials have it.
const USUAL: BenchEntry = entry!(1, false, 0, 0);

// An entry with the tag of another page, which points to itself.
const LOOPING: BenchEntry = BenchEntry {
    key: 1,
    page: 38,
    last: false,
    write: false,
    transaction: 0,
    locks: 0,
};

// Entry 9 in a special segment: lock bit 0 on, all lock bits off, or only lock bit 1 on.
const LOCKED: BenchEntry = entry!(1, true, 0, 0x8000);

const UNLOCKED: BenchEntry = entry!(1, true, 0, 0);

const SECOND_LINE: BenchEntry = entry!(1, true, 0, 0x4000);

// What is asked for: the page, the byte of it, the width, and a load or a store.
macro_rules! request {
    ($page:expr, $spot:ident, $width:ident, $access:ident) => {
        BenchRequest {
            page: $page,
            spot: Spot::$spot,
            width: Width::$width,
            access: AccessType::$access,
        }
    };
}

const LOAD: BenchRequest = request!(6, Fifth, Word, Load);

const STORE: BenchRequest = request!(6, Fifth, Word, Store);

// A trial whose anchor 3 points to entry 9, with the long-stop bit off; made once, or as the last argument says.
macro_rules! trial {
    ($register:expr, $entry:expr, $request:expr) => {
        trial!($register, $entry, $request, false)
    };
    ($register:expr, $entry:expr, $request:expr, $again:expr) => {
        Trial {
            register: $register,
            long_stop: false,
            target: Target::Nine,
            entry: $entry,
            request: $request,
            again: $again,
        }
    };
}

// A trial of a plain register, which loads once: what anchor 3 points to, entry 9, and the long-stop bit.
macro_rules! chained {
    ($target:ident, $entry:expr, $long_stop:expr) => {
        Trial {
            register: PLAIN,
            long_stop: $long_stop,
            target: Target::$target,
            entry: $entry,
            request: LOAD,
            again: false,
        }
    };
}

const TRIALS: [Trial; 20] = [
    trial!(PLAIN, USUAL, LOAD),
    trial!(PLAIN, USUAL, LOAD, true),
    trial!(KEYED, USUAL, STORE),
    trial!(KEYED, USUAL, LOAD),
    trial!(KEYED, entry!(0, false, 0, 0), LOAD),
    trial!(PLAIN, entry!(3, false, 0, 0), STORE),
    trial!(KEYED, entry!(2, false, 0, 0), STORE),
    trial!(PLAIN, USUAL, request!(7, First, Word, Load)),
    trial!(PLAIN, USUAL, request!(38, Fifth, Word, Load)),
    trial!(SPECIAL, LOCKED, STORE),
    trial!(SPECIAL, UNLOCKED, STORE),
    trial!(SPECIAL, entry!(1, false, 0, 0x8000), LOAD),
    trial!(SPECIAL, entry!(1, true, 1, 0x8000), LOAD),
    chained!(Four, USUAL, false),
    chained!(Nine, LOOPING, true),
    chained!(Nine, LOOPING, false),
    chained!(Outside, USUAL, false),
    trial!(BARRED, USUAL, LOAD),
    trial!(SPECIAL, SECOND_LINE, request!(6, EndOfLine, Byte, Store)),
    trial!(SPECIAL, SECOND_LINE, request!(6, NextLine, Byte, Store)),
];

// The twenty trials, in their order.
#[tactic(auto, using(crate::proofs::Starred::starred_stand))]
pub fn all_trials() -> [Trial; 20]
    ensures is { result ≡ trials }
    ensures starred { StarredStand }
{
    TRIALS
}
