#![tactic(auto)]

// The two pairs stand apart: how many words they have, which storage has a word and the list that they make differ, and
// only the refusal behind the last word is alike.
pub mod interleaved;
pub mod ram;
pub mod stacked;
