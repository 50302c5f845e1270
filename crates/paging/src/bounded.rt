ghost use Rattle.std.specs.Prelude.{◌≡◌, ◌<◌, ◌≤◌, MatchOption};

// A number no higher than a highest, which may be any. Of a base number the page form decides the highest (`BaseNumber`).
#[derive(Clone, Copy)]
pub struct BoundedNumber<const HIGHEST: u32> {
    number: u32,
    ghost low: { number ≤ HIGHEST },
}

impl<const HIGHEST: u32> BoundedNumber<HIGHEST> {
    // The number, unless it is above the highest.
    pub fn new(number: u32) -> Option<BoundedNumber<HIGHEST>>
        ensures { MatchOption result (HIGHEST < number) (λ b. b.number ≡ number) }
    {
        if number <= HIGHEST {
            Some(BoundedNumber { number })
        } else {
            None
        }
    }

    pub fn number(&self) -> u32
        ensures { result ≡ self.now.number }
    {
        self.number
    }
}
