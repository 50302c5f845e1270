#![tactic(auto)]

pub mod comparison;
pub mod lines;
pub mod page_map;
pub mod plans;
