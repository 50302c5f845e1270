#![tactic(auto)]

pub mod bytes;
pub mod copy;
pub mod words;
