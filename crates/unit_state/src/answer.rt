ghost use Rattle.std.specs.Prelude.{◌≡◌, None, Ok};
ghost use Rattle.unit_state.specs.Answers.{answered};

pub use page_table::walk::{Compared, Fault};

// What an accepted request answers: the loaded value, or 0 for a store; and which table entries were compared.
#[derive(Clone, Copy, PartialEq, Eq, Debug)]
pub struct Access {
    pub value: u32,
    pub compared: Compared,
}

impl Access {
    // What is accepted without a walk.
    pub fn uncompared(value: u32) -> Access
        ensures { Ok result ≡ answered None value }
    {
        Access {
            value,
            compared: Compared::default(),
        }
    }
}
