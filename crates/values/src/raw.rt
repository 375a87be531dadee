// The raw size of a statement, from the sizes of its operands.
ghost use Rattle.std.specs.Prelude.{◌≡◌, ◌+◌, ◌*◌, ◌≤◌};
ghost use Rattle.poly.specs.Size.{one_if, nonzeros};
ghost use Rattle.values.specs.Raw.{most_standing};
ghost use Rattle.values.specs.Found.{found_size, RawAsked};

use crate::found::Found;
use crate::source::size_of;
use crate::tables::Tables;

// How many of a map's coefficients are not 0.
pub(crate) fn count_nonzero(list: [u8; 8]) -> usize
    ensures { (result ≡ nonzeros list) × (result ≤ 8) }
{
    list.iter().filter(|c| **c != 0).count()
}

// The raw size of an application to p terms: p for each coefficient that is not 0, and one for such
// a constant.
pub(crate) fn image_size(list: [u8; 8], c: u8, p: usize) -> usize
    requires { p ≤ most_standing }
    ensures { result ≡ nonzeros list * p + one_if c }
{
    count_nonzero(list) * p + usize::from(c != 0)
}

// The raw size of a statement.
pub fn raw_size(t: Tables, found: Found) -> usize
    requires { RawAsked found }
    ensures { result ≡ found_size t.lists t.constants found }
{
    match found {
        Found::Copy(a) => size_of(a),
        Found::Sum(a, b) => size_of(a) + size_of(b),
        Found::Product(a, b) => size_of(a) * size_of(b),
        Found::Image(f, a) => image_size(t.lists[f], t.constants[f], size_of(a)),
    }
}
