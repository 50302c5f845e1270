#![tactic(auto)]

pub mod agreement;
pub mod block;
pub mod drawing;
pub mod layout;
pub mod marker;
pub mod sites;
pub mod table;
