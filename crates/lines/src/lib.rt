// What one line of a text leads to: its refusal, or what is known behind it and what is to be
// stored.
#![tactic(auto)]

pub mod assign;
pub mod declare;
pub mod known;
pub mod letting;
pub mod limited;
pub mod line;
pub mod order;
pub mod setting;
pub mod step;
pub mod take;
