ghost use Rattle.std.specs.Prelude.{◌≡◌};
ghost use Rattle.unit_state.specs.Answers.{answer_number, answer_value};

use crate::answer::{Access, Fault};

// What a request answers.
pub type Answer = Result<Access, Fault>;

// The number of an answer: 0 where the request was accepted, else that of the refusal.
pub fn answer_number(answer: &Answer) -> u8
    ensures { result ≡ answer_number answer.now }
{
    match answer {
        Ok(_) => 0,
        Err(fault) => fault.refusal.number(),
    }
}

// The value of an answer: what was loaded, and 0 for a store and a refusal.
pub fn answer_value(answer: &Answer) -> u32
    ensures { result ≡ answer_value answer.now }
{
    match answer {
        Ok(access) => access.value,
        Err(_) => 0,
    }
}
