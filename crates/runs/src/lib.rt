#![tactic(auto)]

pub mod call;
pub mod carrying;
pub mod running;
pub mod set_up;
pub mod twice;
