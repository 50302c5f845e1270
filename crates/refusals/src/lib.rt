#![tactic(auto)]

ghost use Rattle.std.specs.Prelude.{◌≡◌};
ghost use Rattle.refusals.specs.Numbers.{number_of};

use std::fmt;

pub mod refusal;

use refusal::Refusal;

impl Refusal {
    // The number of the reason, as the restore notes have it. An accepted call has the number 0.
    pub fn number(self) -> u8
        ensures { result ≡ number_of self }
    {
        self as u8
    }

    // The reason in words. A derived error would repeat the number in each text.
    fn reason(self) -> &'static str {
        match self {
            Refusal::ExponentOutside => "the size exponent is outside 16 to 24",
            Refusal::BaseTooHigh => "the base number is above the page form's highest",
            Refusal::RegisterOutside => "the segment register or the segment ID does not exist",
            Refusal::SizeDiffers => "the storage is not as long as the plan says",
            Refusal::ValueTooWide => "the value is too wide to be stored",
            Refusal::SegmentAbsent => "the segment is not present",
            Refusal::RealAddressOutside => "the real address lies outside the storage",
            Refusal::SegmentBarred => "the segment is barred to the processor",
            Refusal::PageFault => "the page table does not have the page",
            Refusal::LongSearch => "127 entries of the page table were compared without an end",
            Refusal::PointerOutside => "a pointer of the page table names no entry of it",
            Refusal::EndlessChain => "a chain of the page table has no end",
            Refusal::ProtectionRefused => "the key of the page does not permit it",
            Refusal::LockRefused => "the locks of the page do not permit it",
            Refusal::PageMarkOutside => "the page lies outside the storage",
            Refusal::WordOutside => "the word lies outside the storage",
            Refusal::MaskTooWide => "the mask has more than four bits",
            Refusal::NotADirectory => "the list of pages is not a directory",
        }
    }
}

impl fmt::Display for Refusal {
    fn fmt<W: fmt::Write>(&self, f: &mut fmt::Formatter<W>) -> fmt::Result {
        let number = self.number();
        let reason = self.reason();
        write!(f, "refusal {number}, {reason}")
    }
}
