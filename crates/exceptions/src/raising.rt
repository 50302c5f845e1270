ghost use Rattle.std.specs.Prelude.{◌≡◌, ◌≤◌};
ghost use Rattle.exceptions.specs.Raising.{exception_of, no_exceptions, any_cause, with_cause, raised, noted, cleared, bit, word_of};

use crate::registers::{Causes, Exception, Exceptions};
use paging::address::EffectiveAddress;
use protection::access_type::AccessType;
use refusals::refusal::Refusal;

// The exception that a refusal raises, if it raises one.
pub fn exception_of(refusal: Refusal) -> Option<Exception>
    ensures { result ≡ exception_of refusal }
{
    match refusal {
        Refusal::SegmentBarred => Some(Exception::SegmentBarred),
        Refusal::PageFault => Some(Exception::PageFault),
        Refusal::LongSearch => Some(Exception::LongSearch),
        Refusal::ProtectionRefused => Some(Exception::Protection),
        Refusal::LockRefused => Some(Exception::Lock),
        _ => None,
    }
}

fn word_bit(on: bool, value: u32) -> u32
    ensures is { result ≡ bit on value }
    ensures low { result ≤ value }
{
    if on { value } else { 0 }
}

impl Causes {
    fn any(self) -> bool
        ensures { result ≡ any_cause self }
    {
        self.segment_barred || self.page_fault || self.long_stop || self.protection || self.lock
    }

    fn set(&mut self, exception: Exception)
        ensures { self.new ≡ with_cause self.old exception }
    {
        match exception {
            Exception::SegmentBarred => self.segment_barred = true,
            Exception::PageFault => self.page_fault = true,
            Exception::LongSearch => self.long_stop = true,
            Exception::Protection => self.protection = true,
            Exception::Lock => self.lock = true,
        }
    }
}

impl Exceptions {
    // As they are after power-on.
    pub fn none() -> Exceptions
        ensures { result ≡ no_exceptions }
    {
        Exceptions::default()
    }

    fn raise(&mut self, exception: Exception, address: EffectiveAddress, access: AccessType)
        ensures { self.new ≡ raised self.old exception address access }
    {
        if self.causes.any() {
            self.multiple = true;
        }
        self.causes.set(exception);
        if !self.locked {
            self.address = address;
            self.locked = true;
            self.load = access.is_load();
        }
    }

    // Raises the exception of a refusal, if it has one.
    pub fn note(&mut self, refusal: Refusal, address: EffectiveAddress, access: AccessType)
        ensures { self.new ≡ noted self.old refusal address access }
    {
        if let Some(exception) = exception_of(refusal) {
            self.raise(exception, address, access);
        }
    }

    // Zeroes the exception register and unlocks the address register.
    pub fn clear(&mut self)
        ensures { self.new ≡ cleared self.old }
    {
        let address = self.address;
        *self = Exceptions::none();
        self.address = address;
    }

    // The exception register as the processor reads it.
    pub fn word(&self) -> u32
        ensures { result ≡ word_of self.now }
    {
        word_bit(self.causes.segment_barred, 1 << 17)
            + word_bit(self.load, 1 << 12)
            + word_bit(self.causes.long_stop, 1 << 6)
            + word_bit(self.multiple, 1 << 4)
            + word_bit(self.causes.page_fault, 1 << 3)
            + word_bit(self.causes.protection, 1 << 1)
            + word_bit(self.causes.lock, 1)
    }
}
