// A statement's value formed in the first work buffer, behind the values so far.
#![tactic(auto)]

pub mod form;
pub mod found;
pub mod load;
pub mod raw;
pub mod shelf;
pub mod source;
pub mod tables;
pub mod value;
pub mod view;
