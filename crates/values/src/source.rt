// Where the polynomial of an operand is to be found, and which values a statement may read.
ghost use Rattle.std.specs.Prelude.{◌≡◌};
ghost use Rattle.values.specs.Source.{source_size};

// A constant; the sum of some variables, the first and how many; or a value in the buffer, its
// first term and how many.
#[derive(Clone, Copy)]
pub enum Source {
    Constant(u8),
    Variables(usize, usize),
    Stored(usize, usize),
}

// The values that a statement may read: so many that its block begins with, each the sum of `width`
// variables, then those of the statements from `base` on. The first `drawn` variables may be drawn.
#[derive(Clone, Copy)]
pub struct Scope {
    pub begins: usize,
    pub width: usize,
    pub base: usize,
    pub drawn: usize,
}

// How many terms it has.
pub fn size_of(s: Source) -> usize
    ensures { result ≡ source_size s }
{
    match s {
        Source::Constant(c) => usize::from(c != 0),
        Source::Variables(i, k) => k,
        Source::Stored(at, k) => k,
    }
}
