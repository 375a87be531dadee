// The value of a statement, formed above all values so far.
ghost use Rattle.values.specs.Shelf.{Laid};
ghost use Rattle.values.specs.Found.{found_value};
ghost use Rattle.values.specs.Value.{FormAsked};

use crate::form::{form_copy, form_image, form_product, form_sum};
use crate::found::Found;
use crate::tables::Tables;

// Forms the statement's value from term `top` on, above all values, and answers how many terms it
// has; operands are loaded in `right`.
pub fn form_value(
    m: u8,
    t: Tables,
    found: Found,
    left: &mut [u8],
    top: usize,
    right: &mut [u8],
    w: usize,
) -> usize
    requires { FormAsked m t.lists t.constants found left.old top right.old w }
    ensures { Laid w left.old left.new top result
        (found_value m w t.lists t.constants left.old found) }
{
    match found {
        Found::Copy(a) => form_copy(left, top, a, right, w),
        Found::Sum(a, b) => form_sum(m, left, top, a, b, right, w),
        Found::Product(a, b) => form_product(m, left, top, a, b, right, w),
        Found::Image(f, a) => form_image(m, t.lists, f, t.constants[f], left, top, a, right, w),
    }
}
