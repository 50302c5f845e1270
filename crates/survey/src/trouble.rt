ghost use Rattle.std.specs.Prelude.{◌≡◌};
ghost use Rattle.survey.specs.Hindered.{hindered};
ghost use Rattle.survey.specs.declared.trouble.Trouble.TheVariants.{Memory, Refused};

use paging::draft::RefusedDraft;
use refusals::refusal::Refusal;
use runs::twice::{Hindrance, NotRun};
use std::alloc::{AllocError, AllocFailed};
use thiserror::Error;
use unit_state::answer::Fault;

// Why the check of an image stops. What it is made from says by `from_gives` which trouble it gives, which a derive would not.
#[derive(Debug, Drop, Error)]
pub enum Trouble {
    #[error("there is not enough memory")]
    Memory,
    #[error("{0}")]
    Refused(Refusal),
    #[error("a reply has no value")]
    NoValue,
}

impl From<AllocError> for Trouble {
    ghost from_gives = { λ _ r. r ≡ Memory };

    fn from(_e: AllocError) -> Trouble {
        Trouble::Memory
    }
}

impl<T: Drop> From<AllocFailed<T>> for Trouble {
    ghost from_gives = { λ _ r. r ≡ Memory };

    fn from(_e: AllocFailed<T>) -> Trouble {
        Trouble::Memory
    }
}

impl From<Refusal> for Trouble {
    ghost from_gives = { λ e r. r ≡ Refused e };

    fn from(e: Refusal) -> Trouble {
        Trouble::Refused(e)
    }
}

impl From<Fault> for Trouble {
    ghost from_gives = { λ e r. r ≡ Refused e.refusal };

    fn from(e: Fault) -> Trouble {
        Trouble::Refused(e.refusal)
    }
}

impl<F: Drop> From<RefusedDraft<F>> for Trouble {
    ghost from_gives = { λ e r. r ≡ Refused e.refusal };

    fn from(e: RefusedDraft<F>) -> Trouble {
        let RefusedDraft { draft: _, refusal } = e;
        Trouble::Refused(refusal)
    }
}

impl<F: Drop> From<NotRun<F>> for Trouble {
    ghost from_gives = { λ e r. r ≡ hindered e.reason };

    fn from(e: NotRun<F>) -> Trouble {
        let NotRun { draft: _, reason } = e;
        match reason {
            Hindrance::Memory => Trouble::Memory,
            Hindrance::Refused(rule) => Trouble::Refused(rule),
        }
    }
}
