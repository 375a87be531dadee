// Reduced polynomials in lent buffers. A term is its coefficient and then one power for each
// variable, a byte each; the terms of a polynomial ascend, the last variable compared first.
#![tactic(auto)]

pub mod add;
pub mod insert;
pub mod term;
