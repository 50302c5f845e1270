ghost use Rattle.std.specs.Prelude.{◌≡◌, ◌<◌, ◌≤◌, MatchOption, ⊤};

use crate::form::PageForm;
use std::alloc::AllocError;
use std::marker::PhantomData;

// A base number of the page table, no higher than its page form allows.
#[derive_where(Copy)]
pub struct BaseNumber<F: PageForm> {
    number: u32,
    form: PhantomData<F>,
    ghost low: { number ≤ F.PageForm.sizes.highest },
}

// By hand: tried with `derive_where`, and the check refuses to derive `Clone` for a struct with a ghost field.
impl<F: PageForm> Clone for BaseNumber<F> {
    ghost is_clone = { λ x y. y ≡ x };

    ghost is_infallible = { λ _. ⊤ };

    fn clone(&self) -> Result<BaseNumber<F>, AllocError> {
        Ok(*self)
    }
}

impl<F: PageForm> BaseNumber<F> {
    // The base number, unless it is above the form's highest.
    pub fn new(number: u32) -> Option<BaseNumber<F>>
        ensures { MatchOption result (F.PageForm.sizes.highest < number) (λ b. b.number ≡ number) }
    {
        if number <= F::geometry().highest {
            Some(BaseNumber {
                number,
                form: PhantomData,
            })
        } else {
            None
        }
    }

    pub fn number(&self) -> u32
        ensures { result ≡ self.now.number }
    {
        self.number
    }
}
