#![tactic(auto)]

pub mod accessing;
pub mod answer;
pub mod answers;
pub mod marking;
pub mod state;
pub mod translate;
pub mod translation;
