// Both blocks of a routine walked in the work buffers, statement by statement, and the difference.
#![tactic(auto)]

pub mod difference;
pub mod survey;
pub mod table;
pub mod walk;
