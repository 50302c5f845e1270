#![tactic(auto)]

pub mod board_check;
pub mod call_check;
pub mod calls;
pub mod findings;
pub mod on_boards;
pub mod page_marks;
pub mod readings;
pub mod real_loads;
pub mod site_check;
pub mod trouble;
