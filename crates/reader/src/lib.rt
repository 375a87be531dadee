// The records of a text one after another: a cursor over its lines, and the reader that holds both.
#![tactic(auto)]

pub mod cursor;
pub mod formed;
pub mod handed;
pub mod reader;
