// What the walk over a block reads of the maps.

// The eight coefficients of each of eight maps, and the constant of each. Two arrays: the rules name
// the form of the first, an array of eight arrays of eight bytes, handed on by value.
#[derive(Clone, Copy)]
pub struct Tables {
    pub lists: [[u8; 8]; 8],
    pub constants: [u8; 8],
}
