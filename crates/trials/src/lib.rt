#![tactic(auto)]

pub mod bench;
pub mod image;
pub mod running;
pub mod table;
