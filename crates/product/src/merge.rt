// Two sorted runs of terms in one buffer, a sum and a piece behind it, merged in one pass.
ghost use Rattle.std.specs.Prelude.{◌≡◌, [], ◌∷◌, suc, ◌+◌, ◌*◌, ◌-◌, ◌<◌, ◌≤◌};
ghost use Rattle.std.specs.Prelude.{length, get_or, take, drop};
ghost use Rattle.field.specs.Xor.{◌⊕◌};
ghost use Rattle.poly.specs.Poly.{keep};
ghost use Rattle.buffer.specs.Buffer.{term_at, answer};
ghost use Rattle.product.specs.Merge.{StepAsked, SteppedAny, MergeAsked, MergedAny};
ghost use Rattle.product.specs.Merge.{Grown, facing};

use buffer::term::{compare_powers, move_down, move_up};
use std::cmp::Ordering;

// How far a merge is: how many terms are written, and the next term of the sum and of the piece.
#[derive(Clone, Copy)]
pub struct Merge {
    pub terms: usize,
    pub sum: usize,
    pub piece: usize,
}

// The r terms from term `at` on merged with the n at the front, w bytes each, by way of the room
// between them; answers how many there are now, at the front.
pub(crate) fn merge_terms(b: &mut [u8], n: usize, at: usize, r: usize, w: usize) -> usize
    requires { MergeAsked b.old n at r w }
    ensures { MergedAny b.old b.new n at r w result }
{
    move_up(b, 0, n * w, (at - n) * w);
    let last = at + r;
    let mut g = Merge {
        terms: 0,
        sum: at - n,
        piece: at,
    };
    // the terms written, and what those left of the piece and of the sum give, are the result
    // a step passes a term of the piece, of the sum, or of both: no range counts the steps
    while g.piece < last {
        g = merge_step(b, g, at, w);
    }
    let k = g.terms;
    let i = g.sum;
    move_down(b, i * w, at * w, (i - k) * w);
    k + (at - i)
}

// The next term of the piece or of the sum, which ends at term `end`, written behind those that
// are; where both have the same powers they are joined, and a coefficient of zero goes.
fn merge_step(b: &mut [u8], g: Merge, end: usize, w: usize) -> Merge
    requires { StepAsked b.old w g.terms g.sum end g.piece }
    ensures { SteppedAny b.old b.new w end
        g.terms g.sum g.piece result.terms result.sum result.piece }
{
    let k = g.terms;
    let i = g.sum;
    let j = g.piece;
    match first_of(b, i, end, j, w) {
        Ordering::Less => {
            take_term(b, j, k, w);
            Merge {
                terms: k + 1,
                piece: j + 1,
                ..g
            }
        }
        Ordering::Greater => {
            take_term(b, i, k, w);
            Merge {
                terms: k + 1,
                sum: i + 1,
                ..g
            }
        }
        Ordering::Equal => Merge {
            terms: join_terms(b, i, j, k, w),
            sum: i + 1,
            piece: j + 1,
        },
    }
}

// Which comes first, term j of the piece or term i of the sum, which ends at term `end`; the
// piece's where the sum is at its end.
fn first_of(b: &[u8], i: usize, end: usize, j: usize, w: usize) -> Ordering
    requires { (0 < w) × (i ≤ end) × (end ≤ j) × ((j + 1) * w ≤ length b.now) }
    ensures { result ≡ answer (facing b.now w i end j) }
{
    if i == end {
        return Ordering::Less;
    }
    let x = i * w;
    let y = j * w;
    compare_powers(&b[y + 1..y + w], &b[x + 1..x + w])
}

// Term i moved down to the place of term k.
fn take_term(b: &mut [u8], i: usize, k: usize, w: usize)
    requires { (0 < w) × (k ≤ i) × ((i + 1) * w ≤ length b.old) }
    ensures { Grown b.old b.new w k (k + 1) (k + 1)
        (term_at (w - 1) b.old (i * w) ∷ []) }
{
    let at = i * w;
    move_down(b, at, at + w, at - k * w);
}

// Term i of the sum joined with term j of the piece, which has the same powers, and moved down to
// the place of term k, unless its coefficient is zero; answers how many terms are written now.
fn join_terms(b: &mut [u8], i: usize, j: usize, k: usize, w: usize) -> usize
    requires { (0 < w) × (k < i) × (i < j) × ((j + 1) * w ≤ length b.old) }
    ensures { Grown b.old b.new w k result (i + 1)
        (keep (get_or b.old (j * w) 0 ⊕ get_or b.old (i * w) 0)
        (take (w - 1) (drop (suc (i * w)) b.old)) []) }
{
    let at = i * w;
    let c = b[j * w] ^ b[at];
    if c == 0 {
        return k;
    }
    b[at] = c;
    take_term(b, i, k, w);
    k + 1
}
