// A value formed in the first work buffer, from term `top` on; `left` holds the values so far,
// `right` is lent for operands. Each answers how many terms it has. The parameters stay apart:
// `left` and `right` are lent again by each, and no two take the same of the others.
ghost use Rattle.std.specs.Prelude.{[], ◌+◌, ◌*◌, ◌-◌, ◌<◌, get_or};
ghost use Rattle.field.specs.Field.{Modulus};
ghost use Rattle.field.specs.Laws.{gf};
ghost use Rattle.poly.specs.Poly.{add_poly, mul_poly, map_poly};
ghost use Rattle.poly.specs.Size.{one_if, nonzeros};
ghost use Rattle.values.specs.Shelf.{Laid};
ghost use Rattle.values.specs.Source.{source_of, source_size};
ghost use Rattle.values.specs.Load.{LayAsked, LoadAsked};
ghost use Rattle.values.specs.Form.{PairAsked, Paired};

use crate::load::{TERM_BYTES, lay_stored, load};
use crate::source::{Source, size_of};
use buffer::add::add_terms;
use product::apply::apply_map;
use product::product::product;

// Lays two operands in `right`, one behind the other.
pub(crate) fn load_pair(left: &[u8], a: Source, b: Source, right: &mut [u8], w: usize)
    requires { PairAsked left.now a b right.old w }
    ensures { Paired w left.now a b right.old right.new }
{
    load(left, a, right, 0, w);
    load(left, b, right, size_of(a), w);
}

// A copy of an operand.
pub(crate) fn form_copy(left: &mut [u8], top: usize, a: Source, right: &mut [u8], w: usize) -> usize
    requires { LoadAsked left.old a right.old 0 w
        × LayAsked left.old top (source_size a) w }
    ensures { Laid w left.old left.new top result
        (source_of w left.old a) }
{
    load(left, a, right, 0, w);
    let k = size_of(a);
    lay_stored(right, 0, k, left, top, w);
    k
}

// The sum of two operands.
pub(crate) fn form_sum(
    m: u8,
    left: &mut [u8],
    top: usize,
    a: Source,
    b: Source,
    right: &mut [u8],
    w: usize,
) -> usize
    requires { PairAsked left.old a b right.old w
        × LayAsked left.old top (source_size a + source_size b) w }
    ensures { Laid w left.old left.new top result (add_poly (gf m)
        (source_of w left.old a) (source_of w left.old b)) }
{
    load_pair(left, a, b, right, w);
    let k = size_of(a) + size_of(b);
    let at = top * w;
    let end = left.len();
    add_terms(&mut left[at..end], 0, right, k, w)
}

// The product of two operands.
pub(crate) fn form_product(
    m: u8,
    left: &mut [u8],
    top: usize,
    a: Source,
    b: Source,
    right: &mut [u8],
    w: usize,
) -> usize
    requires { PairAsked left.old a b right.old w
        × LayAsked left.old top (source_size a * source_size b) w }
    ensures { Laid w left.old left.new top result (mul_poly (gf m)
        (source_of w left.old a) (source_of w left.old b)) }
{
    load_pair(left, a, b, right, w);
    let i = size_of(a);
    let k = size_of(b);
    let at = top * w;
    let end = left.len();
    let from = i * w;
    let to = right.len();
    let whole = &right[..];
    let mut t = [0u8; TERM_BYTES];
    product(
        m,
        &mut left[at..end],
        &whole[0..from],
        i,
        &whole[from..to],
        k,
        &mut t[0..w],
    )
}

// The image of an operand under map f, by its coefficients and its constant c.
pub(crate) fn form_image(
    m: u8,
    lists: [[u8; 8]; 8],
    f: usize,
    c: u8,
    left: &mut [u8],
    top: usize,
    a: Source,
    right: &mut [u8],
    w: usize,
) -> usize
    requires { Modulus m × (f < 8) × LoadAsked left.old a right.old 0 w
        × LayAsked left.old top (one_if c + nonzeros (get_or lists f []) * source_size a) w }
    ensures { Laid w left.old left.new top result
        (map_poly (gf m) (w - 1) c (get_or lists f []) (source_of w left.old a)) }
{
    load(left, a, right, 0, w);
    let k = size_of(a);
    let at = top * w;
    let end = left.len();
    let mut t = [0u8; TERM_BYTES];
    apply_map(m, lists, f, c, &mut left[at..end], right, k, &mut t[0..w])
}
