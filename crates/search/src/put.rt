// A byte put in for a variable, in place: one pass over the terms, in which neighbours are joined.
ghost use Rattle.std.specs.Prelude.{◌≡◌, ◌∷◌, suc, ◌+◌, ◌*◌, ◌-◌, ◌<◌, ◌≤◌};
ghost use Rattle.std.specs.Prelude.{length, set, take, drop};
ghost use Rattle.buffer.specs.Buffer.{read_terms};
ghost use Rattle.buffer.specs.Move.{Written};
ghost use Rattle.search.specs.Put.{PutAsked, Put, same_next, StepAsked, SteppedBy};

use buffer::term::move_down;
use field::{power_table, times};

// What a pass has written and gathered: how many terms, and the sum of the coefficients of the
// group that it is in.
#[derive(Clone, Copy)]
pub struct Pass {
    pub terms: usize,
    pub sum: u8,
}

// The byte a put in for variable i of the k terms of b, w bytes each, whose powers before i are
// zero; answers how many terms are left. Where none is left the buffer is as it was.
pub(crate) fn put(m: u8, b: &mut [u8], k: usize, w: usize, i: usize, a: u8) -> usize
    requires { PutAsked m b.old k w i }
    ensures { Put m b.old b.new k w i a result }
{
    let table = power_table(m, a);
    let mut g = Pass { terms: 0, sum: 0 };
    // the terms written, and what the gathered sum and the terms from j on still give, are the
    // result
    for j in 0..k {
        g = put_step(m, b, k, w, i, &table, j, g);
    }
    g.terms
}

// Term j of k read: its value is gathered, and where its group ends with a sum other than zero the
// group is written behind the terms written so far. `table` holds the powers of the byte put in.
// What stays the same over a pass is handed on as it is: a struct of it would have this one reader.
fn put_step(
    m: u8,
    b: &mut [u8],
    k: usize,
    w: usize,
    i: usize,
    table: &[u8; 256],
    j: usize,
    g: Pass,
) -> Pass
    requires { StepAsked b.old k w i j g.terms }
    ensures { SteppedBy m table.now b.old b.new k w i j
        g.terms g.sum result.terms result.sum }
{
    let at = j * w;
    let e = b[at + 1 + i] as usize;
    let sum = g.sum ^ times(m, b[at], table[e]);
    if same_group(b, k, w, i, j) {
        return Pass { sum, ..g };
    }
    if sum == 0 {
        return Pass { sum: 0, ..g };
    }
    write_group(b, at, g.terms * w, w, i, sum);
    Pass {
        terms: g.terms + 1,
        sum: 0,
    }
}

// Whether a term stands behind term j that differs from it in the powers up to variable i alone.
fn same_group(b: &[u8], k: usize, w: usize, i: usize, j: usize) -> bool
    requires { (suc i < w) × (j < k) × (k * w ≤ length b.now) }
    ensures { result ≡ same_next i (read_terms (w - 1) b.now (j * w) (k - j)) }
{
    if k - j == 1 {
        return false;
    }
    let at = j * w;
    let next = at + w;
    b[at + 2 + i..next] == b[next + 2 + i..next + w]
}

// The term at byte `at` written at byte `to`, with the coefficient c and the power 0 of variable i.
fn write_group(b: &mut [u8], at: usize, to: usize, w: usize, i: usize, c: u8)
    requires { (suc i < w) × (to ≤ at) × (at + w ≤ length b.old) }
    ensures { Written b.old b.new to
        (c ∷ set (take (w - 1) (drop (suc at) b.old)) i 0) }
{
    move_down(b, at, at + w, at - to);
    b[to] = c;
    b[to + 1 + i] = 0;
}
