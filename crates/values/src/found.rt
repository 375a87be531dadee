// A statement with the sources of its operands in their place.
use crate::source::Source;

// A copy; the sum or the product of two; the image under a map, by its place.
#[derive(Clone, Copy)]
pub enum Found {
    Copy(Source),
    Sum(Source, Source),
    Product(Source, Source),
    Image(usize, Source),
}
