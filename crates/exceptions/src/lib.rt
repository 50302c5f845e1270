#![tactic(auto)]

pub mod raising;
pub mod registers;
