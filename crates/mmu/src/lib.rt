#![tactic(auto)]

pub mod exception_registers;
pub mod grants;
pub mod marks;
pub mod power;
pub mod purges;
pub mod real;
pub mod registers;
pub mod requests;
pub mod unit;
