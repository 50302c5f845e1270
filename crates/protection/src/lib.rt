#![tactic(auto)]

pub mod access_type;
pub mod permission;
pub mod register;
