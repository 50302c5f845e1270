#![tactic(auto)]

pub mod address;
pub mod base;
pub mod bounded;
pub mod draft;
pub mod form;
pub mod geometry;
pub mod plan;
pub mod settling;
pub mod smallest;
