#![tactic(auto)]

pub mod buffers;
pub mod lookup;
pub mod purging;
