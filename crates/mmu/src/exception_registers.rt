ghost use Rattle.std.specs.Prelude.{◌≡◌};
ghost use Rattle.exceptions.specs.Raising.{cleared};
ghost use Rattle.unit_state.specs.State.{with_exceptions};

use crate::unit::MemoryUnit;
use exceptions::registers::Exceptions;
use paging::form::PageForm;

impl<F: PageForm> MemoryUnit<F> {
    // The exception registers. Reading them alters nothing.
    pub fn exceptions(&self) -> Exceptions
        ensures { result ≡ self.now.state.exceptions }
    {
        self.state.exceptions
    }

    // Zeroes the exception register and unlocks the exception address register.
    pub fn clear_exceptions(&mut self)
        ensures state { self.new.state ≡ with_exceptions self.old.state (cleared self.old.state.exceptions) }
        ensures plan { self.new.plan ≡ self.old.plan }
    {
        self.state.exceptions.clear();
    }
}
