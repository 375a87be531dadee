// A map applied to a polynomial p: its constant, and its coefficients times p, p², p⁴, .. p^128.
ghost use Rattle.std.specs.Prelude.{[], ◌*◌, ◌<◌, ◌≤◌, length, get_or};
ghost use Rattle.poly.specs.Size.{one_if};
ghost use Rattle.product.specs.Apply.{Constant, Squared, ScaledAsked, ScaledAdded};
ghost use Rattle.product.specs.Apply.{ApplyAsked, Applied};

use crate::product::{product_row, term_product};

// Map i of those whose coefficients are `lists`, with the constant c, applied to the k terms of
// src, written to the front of b; answers how many terms that is. src is used up, and t is room for
// a term.
pub fn apply_map(
    m: u8,
    lists: [[u8; 8]; 8],
    i: usize,
    c: u8,
    b: &mut [u8],
    src: &mut [u8],
    k: usize,
    t: &mut [u8],
) -> usize
    requires { (i < 8) × ApplyAsked m c (get_or lists i []) b.old src.old k t.old }
    ensures { Applied m c (get_or lists i []) b.old b.new
        src.old src.new k (length t.old) result }
{
    let list = lists[i];
    apply(m, list, c, b, src, k, t)
}

// The same for one map, whose coefficients are `list`.
fn apply(m: u8, list: [u8; 8], c: u8, b: &mut [u8], src: &mut [u8], k: usize, t: &mut [u8]) -> usize
    requires { ApplyAsked m c list b.old src.old k t.old }
    ensures { Applied m c list b.old b.new
        src.old src.new k (length t.old) result }
{
    let w = t.len();
    let mut n = write_constant(b, c, w);
    // what the coefficients from l on add to the terms in b gives the whole map; src is squared as
    // many times as there are coefficients before l
    for l in list {
        n = scaled_row(m, b, n, l, src, k, t);
        square_terms(m, src, k, t);
    }
    n
}

// The constant c as a polynomial, written to the front of b, a term of w bytes; answers how many
// terms that is.
fn write_constant(b: &mut [u8], c: u8, w: usize) -> usize
    requires { (0 < w) × (one_if c * w ≤ length b.old) }
    ensures { Constant b.old b.new c w result }
{
    if c == 0 {
        return 0;
    }
    b[0] = c;
    b[1..w].fill(0);
    1
}

// l times each of the k terms of src inserted among the r sorted terms of b, and nothing where l is
// zero; answers how many there are now. t is room for a term.
fn scaled_row(m: u8, b: &mut [u8], r: usize, l: u8, src: &[u8], k: usize, t: &mut [u8]) -> usize
    requires { ScaledAsked b.old r l src.now k t.old }
    ensures { ScaledAdded m b.old b.new r l
        src.now k (length t.old) result }
{
    if l == 0 {
        return r;
    }
    product_row(m, b, r, &[l], src, k, t)
}

// Each of the k terms of src squared in its place; t is room for a term.
fn square_terms(m: u8, src: &mut [u8], k: usize, t: &mut [u8])
    requires { (0 < length t.old) × (k * length t.old ≤ length src.old) }
    ensures { Squared m src.old src.new k (length t.old) }
{
    let w = t.len();
    // the terms before j are squared; by index, since of chunks that are lent out to be written no
    // contract says what the buffer holds afterwards
    for j in 0..k {
        let term = &mut src[j * w..j * w + w];
        term_product(m, term, term, t);
        term.copy_from_slice(t);
    }
}
