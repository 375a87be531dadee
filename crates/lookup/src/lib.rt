// Names looked up in their sets: what a statement, a formula or the output line reads, by places.
#![tactic(auto)]

pub mod compile;
pub mod names;
pub mod outputs;
pub mod scope;
pub mod table;
