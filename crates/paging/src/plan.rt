ghost use Rattle.std.specs.Prelude.{◌≤◌};

use crate::base::BaseNumber;
use crate::form::PageForm;

// A plan whose numbers are checked: only from one of these a unit is powered on.
#[derive(Drop)]
pub struct SettledPlan<F: PageForm> {
    pub(crate) form: F,
    pub(crate) exponent: u32,
    pub(crate) base: BaseNumber<F>,
    ghost large: { 16 ≤ exponent },
    ghost small: { exponent ≤ 24 },
}
