// Bytes put in for variables, one after the other, and the first bytes whose value is not zero.
#![tactic(auto)]

pub mod put;
pub mod search;
