#![tactic(auto)]

pub mod board;
pub mod directory;
