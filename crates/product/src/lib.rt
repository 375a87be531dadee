// Products of polynomials in lent buffers, and their images under an affine map.
// A polynomial is lent as a buffer and how many terms it has, since what stands behind them is room
// for more; the factors, and the parts of a buffer that rows and pieces are made in, change from
// call to call, so a struct of them would be put together and taken apart at each. The modulus m is
// any byte, as in crate field; where products must be those of a field the contract asks for it.
#![tactic(auto)]

pub mod apply;
pub mod merge;
pub mod product;
