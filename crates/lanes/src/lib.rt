#![tactic(auto)]

pub mod access;
pub mod width;
