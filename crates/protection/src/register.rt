// What a segment register holds: whether the segment is present, whether it is barred to the processor, a segment ID of 12
// bits, whether it is a special segment, and the key bit K. Flags, and no `Option`: a register of an absent segment keeps the rest,
// and gives it back.
#[derive(Clone, Copy, PartialEq, Eq, Default, Debug)]
pub struct SegmentRegister {
    pub present: bool,
    pub barred: bool,
    pub segment: u16,
    pub special: bool,
    pub key: bool,
}
