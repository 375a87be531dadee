// Polynomials laid in a work buffer as terms of w bytes; places are counted in terms. What is asked
// relates a lent buffer, a place and the size of this very polynomial, so each contract says it.
ghost use Rattle.std.specs.Prelude.{◌+◌, ◌*◌, ◌-◌, ◌<◌, ◌≤◌, length};
ghost use Rattle.poly.specs.Poly.{constant, variable, units};
ghost use Rattle.poly.specs.Size.{one_if};
ghost use Rattle.values.specs.Shelf.{terms_at, Laid};
ghost use Rattle.values.specs.Source.{source_of, source_size};
ghost use Rattle.values.specs.Load.{LayAsked, LoadAsked};

use crate::source::Source;
use buffer::term::write_at;

// The most bytes of a term: its coefficient and 24 powers.
pub(crate) const TERM_BYTES: usize = 25;

// Lays variable i.
pub(crate) fn lay_variable(b: &mut [u8], at: usize, i: usize, w: usize)
    requires { (i + 1 < w) × LayAsked b.old at 1 w }
    ensures { Laid w b.old b.new at 1 (variable (w - 1) i) }
{
    let mut t = [0u8; TERM_BYTES];
    t[0] = 1;
    t[i + 1] = 1;
    write_at(b, at * w, &t[0..w]);
}

// Lays a constant, which has no term where it is 0.
pub(crate) fn lay_constant(b: &mut [u8], at: usize, c: u8, w: usize)
    requires { LayAsked b.old at (one_if c) w }
    ensures { Laid w b.old b.new at (one_if c) (constant (w - 1) c) }
{
    if c == 0 {
        return;
    }
    let mut t = [0u8; TERM_BYTES];
    t[0] = c;
    write_at(b, at * w, &t[0..w]);
}

// Lays the sum of k variables from variable i on.
pub(crate) fn lay_variables(b: &mut [u8], at: usize, i: usize, k: usize, w: usize)
    requires { (i + k < w) × LayAsked b.old at k w }
    ensures { Laid w b.old b.new at k (units (w - 1) i k) }
{
    // the first j of them are laid
    for j in 0..k {
        lay_variable(b, at + j, i + j, w);
    }
}

// Lays the k terms of another buffer from term `from` on.
pub(crate) fn lay_stored(left: &[u8], from: usize, k: usize, b: &mut [u8], at: usize, w: usize)
    requires { ((from + k) * w ≤ length left.now) × LayAsked b.old at k w }
    ensures { Laid w b.old b.new at k
        (terms_at w left.now from k) }
{
    let start = from * w;
    let end = start + k * w;
    write_at(b, at * w, &left[start..end]);
}

// Lays the polynomial that is found at a source, where `left` holds the values.
pub fn load(left: &[u8], s: Source, right: &mut [u8], at: usize, w: usize)
    requires { LoadAsked left.now s right.old at w }
    ensures { Laid w right.old right.new at
        (source_size s) (source_of w left.now s) }
{
    match s {
        Source::Constant(c) => lay_constant(right, at, c, w),
        Source::Variables(i, k) => lay_variables(right, at, i, k, w),
        Source::Stored(from, k) => lay_stored(left, from, k, right, at, w),
    }
}
