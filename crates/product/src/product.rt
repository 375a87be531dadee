// The product of two polynomials, of a term and a polynomial, and of two terms.
ghost use Rattle.std.specs.Prelude.{◌≡◌, ◌+◌, ◌<◌, ◌≤◌, length};
ghost use Rattle.poly.specs.Poly.{reduce};
ghost use Rattle.product.specs.Product.{term_times, RowAsked, RowAdded, ProductAsked, Product};
ghost use Rattle.product.specs.Product.{SumAsked, SumAdded, ProductSummed};

use crate::merge::merge_terms;
use buffer::insert::insert_term;
use field::times;

// The product of the i terms of p and the k terms of q, written to the front of b; answers how many
// terms that is. p and q may be one buffer, and t is room for a term. The rows are those of the
// shorter factor's terms.
pub fn product(m: u8, b: &mut [u8], p: &[u8], i: usize, q: &[u8], k: usize, t: &mut [u8]) -> usize
    requires { ProductAsked b.old p.now i q.now k t.old }
    ensures { Product m b.old b.new p.now i
        q.now k (length t.old) result }
{
    let top = i * k * t.len();
    if k < i {
        return product_rows(m, &mut b[..top], q, k, p, i, t);
    }
    product_rows(m, &mut b[..top], p, i, q, k, t)
}

// The products of the i terms of p and all k terms of q, a row for each term of p, added up at the
// front of b; answers how many terms that is. The rest of b is room to work in.
fn product_rows(m: u8, b: &mut [u8], p: &[u8], i: usize, q: &[u8], k: usize, t: &mut [u8]) -> usize
    requires { ProductAsked b.old p.now i q.now k t.old }
    ensures { ProductSummed m b.old b.new p.now i
        q.now k (length t.old) result }
{
    let w = t.len();
    let mut n = 0;
    // the products of the terms of p behind f and all of q are added up
    for f in p[..i * w].rchunks_exact(w) {
        n = add_row(m, b, n, f, q, k, t);
    }
    n
}

// The products of the term f and each of the k terms of src added to the r sorted terms of b, in
// pieces, the last first; answers how many there are now. The rest of b is room to work in.
fn add_row(m: u8, b: &mut [u8], r: usize, f: &[u8], src: &[u8], k: usize, t: &mut [u8]) -> usize
    requires { SumAsked b.old r f.now src.now k (length t.old) }
    ensures { SumAdded m b.old b.new r f.now
        src.now k (length t.old) result }
{
    let w = t.len();
    let mut n = r;
    let mut rest = k;
    // the products of f and the terms from `rest` on are added
    // a piece is as large as the room behind the terms added so far allows: no chunks are all alike
    while 0 < rest {
        let c = piece_size(b.len() - n * w, rest, w);
        rest -= c;
        let at = rest * w;
        let to = at + c * w;
        n = add_piece(m, b, n, f, &src[at..to], c, t);
    }
    n
}

// How many of j products the next piece has: all, or as many as leave room for as many again in
// `left` bytes, or one.
fn piece_size(left: usize, j: usize, w: usize) -> usize
    requires { (0 < j) × (0 < w) }
    ensures { (0 < result) × (result ≤ j) }
{
    (left / 2 / w).clamp(1, j)
}

// The products of the term f and each of the c terms of src added to the n sorted terms of b: made
// a row of their own behind room for c terms, and merged; or inserted, where there is no room for
// that. Answers how many there are now.
fn add_piece(m: u8, b: &mut [u8], n: usize, f: &[u8], src: &[u8], c: usize, t: &mut [u8]) -> usize
    requires { SumAsked b.old n f.now src.now c (length t.old) }
    ensures { SumAdded m b.old b.new n f.now
        src.now c (length t.old) result }
{
    let w = t.len();
    let at = (n + c) * w;
    if b.len() - at < c * w {
        return product_row(m, b, n, f, src, c, t);
    }
    let to = at + c * w;
    let r = product_row(m, &mut b[at..to], 0, f, src, c, t);
    merge_terms(b, n, n + c, r, w)
}

// The products of the term f and each of the k terms of src inserted among the r sorted terms of b,
// the first first; answers how many there are now. f may lack powers, and t is room for a term.
pub(crate) fn product_row(
    m: u8,
    b: &mut [u8],
    r: usize,
    f: &[u8],
    src: &[u8],
    k: usize,
    t: &mut [u8],
) -> usize
    requires { RowAsked b.old r f.now src.now k (length t.old) }
    ensures { RowAdded m b.old b.new r f.now
        src.now k (length t.old) result }
{
    let w = t.len();
    let mut n = r;
    // the products of f and the terms before q are inserted
    for q in src[..k * w].chunks_exact(w) {
        term_product(m, f, q, t);
        n = insert_term(b, n, t);
    }
    n
}

// The product of the terms p and q, written to t, which is as long as q; p may lack powers, which
// are then zero.
pub(crate) fn term_product(m: u8, p: &[u8], q: &[u8], t: &mut [u8])
    requires { (0 < length p.now) × (length p.now ≤ length t.old)
        × (length q.now ≡ length t.old) }
    ensures { t.new ≡ term_times m p.now q.now }
{
    t[0] = times(m, p[0], q[0]);
    // the coefficient and the powers below j are written
    for j in 1..p.len() {
        t[j] = power_sum(p[j], q[j]);
    }
    t[p.len()..].copy_from_slice(&q[p.len()..]);
}

// The power of a variable in a product: above 255 it loses 255.
fn power_sum(a: u8, b: u8) -> u8
    ensures { result ≡ reduce (a + b) }
{
    match a.checked_add(b) {
        Some(sum) => sum,
        None => a - (255 - b),
    }
}
