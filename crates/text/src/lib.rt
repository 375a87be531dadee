// A text becomes a routine or a refusal.
#![tactic(auto)]

pub mod accepted;
pub mod read;
pub mod routine;
pub mod store;
