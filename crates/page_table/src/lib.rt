#![tactic(auto)]

mod asked;
mod chain;
pub mod decode;
pub mod entry;
pub mod finding;
pub mod pairs;
pub mod search;
pub mod trace;
pub mod walk;
