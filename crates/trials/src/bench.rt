use lanes::width::Width;
use protection::access_type::AccessType;
use protection::register::SegmentRegister;
use unit_state::answers::Answer;

// What anchor 3 of the bench image points to: entry 9, entry 4, or P, which is no entry.
#[derive(Clone, Copy)]
pub enum Target {
    Nine,
    Four,
    Outside,
}

// Entry 9 of the bench image: the key of its page, the page number in its tag, whether it is the last of its chain (else it
// points to itself), its write bit, transaction ID and lock bits: each stands in the image, whatever the others are.
#[derive(Clone, Copy)]
pub struct BenchEntry {
    pub key: u8,
    pub page: u8,
    pub last: bool,
    pub write: bool,
    pub transaction: u8,
    pub locks: u16,
}

// A byte of a page: its first, its fifth, the last of its first line, or the first of its second line.
#[derive(Clone, Copy)]
pub enum Spot {
    First,
    Fifth,
    EndOfLine,
    NextLine,
}

// What is asked of the unit: a load, or a store of 0, at a byte of a virtual page, through register 1.
#[derive(Clone, Copy)]
pub struct BenchRequest {
    pub page: u8,
    pub spot: Spot,
    pub width: Width,
    pub access: AccessType,
}

// A trial: what register 1 holds, the long-stop bit, the bench image, and a request, which may be made twice.
// The flags go with any of the rest.
#[derive(Clone, Copy)]
pub struct Trial {
    pub register: SegmentRegister,
    pub long_stop: bool,
    pub target: Target,
    pub entry: BenchEntry,
    pub request: BenchRequest,
    pub again: bool,
}

// What came of a trial: the answer, and the exception register afterwards.
#[derive(Clone, Copy)]
pub struct TrialOutcome {
    pub answer: Answer,
    pub exceptions: u32,
}
