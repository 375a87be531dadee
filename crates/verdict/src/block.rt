// The values of a block of statements on bytes, and the XOR of some of them.
ghost use Rattle.std.specs.Prelude.{◌≡◌, ◌*◌, ◌≤◌, map, length, take};
ghost use Rattle.tokens.specs.Limits.{most_shares};
ghost use Rattle.text.specs.Routine.{outputs_of};
ghost use Rattle.verdict.specs.Meaning.{map_at, value_at, operand, given, joined};
ghost use Rattle.verdict.specs.Instances.{bytes};
ghost use Rattle.verdict.specs.Block.{input_values, Begun, Roomy, Filled};

use rules::types::{AffineMap, Op, Operand};
use text::routine::Routine;

// Puts the value of each input, the XOR of its k shares, at the front.
pub(crate) fn begin_origin(m: u8, k: usize, inputs: usize, xs: &[u8], vs: &mut [u8])
    requires { (inputs * k ≤ length xs.now) × (inputs ≤ length vs.old) }
    ensures { Begun inputs (input_values m k inputs xs.now)
        vs.old vs.new }
{
    // the first i inputs have their values
    for i in 0..inputs {
        let at = i * k;
        vs[i] = join(m, &xs[at..at + k]);
    }
}

// Puts the first n variables, the shares of the inputs, at the front.
pub(crate) fn begin_masked(n: usize, xs: &[u8], vs: &mut [u8])
    requires { (n ≤ length xs.now) × (n ≤ length vs.old) }
    ensures { Begun n (take n xs.now) vs.old vs.new }
{
    vs[..n].copy_from_slice(&xs[..n]);
}

// Puts the values of the statements from..to behind the n values that their block begins with.
pub(crate) fn fill(m: u8, r: Routine, from: usize, to: usize, xs: &[u8], vs: &mut [u8], n: usize)
    requires { Roomy r from to n vs.old }
    ensures { Filled m r from to n xs.now vs.old vs.new }
{
    let maps = &r.maps[..r.mapped];
    // the values of the statements before s stand at the front, `at` of them; a zip with the places
    // from n on would be two walks where the invariant speaks of one
    let mut at = n;
    for s in &r.statements[from..to] {
        vs[at] = given(m, maps, xs, &vs[..at], s.op);
        at += 1;
    }
}

// What a statement gives, from the variables xs and the values vs of its set.
fn given(m: u8, maps: &[AffineMap], xs: &[u8], vs: &[u8], op: Op) -> u8
    ensures { result ≡ given (bytes m) maps.now xs.now vs.now op }
{
    match op {
        Op::Set(a) => operand(m, vs, a),
        Op::Xor(a, b) => operand(m, vs, a) ^ operand(m, vs, b),
        Op::Mul(a, b) => field::times(m, operand(m, vs, a), operand(m, vs, b)),
        Op::App(f, a) => applied(m, map_at(maps, f), operand(m, vs, a)),
        Op::Rand(v) => value_at(m, xs, v),
    }
}

// The value of an operand, among the values of its set.
fn operand(m: u8, vs: &[u8], a: Operand) -> u8
    ensures { result ≡ operand (bytes m) vs.now a }
{
    match a {
        Operand::Place(i) => value_at(m, vs, i),
        Operand::Byte(b) => b,
    }
}

// The value at a place; past the last it is 0. m is read by the clause alone, which speaks of bytes
// over a modulus.
pub(crate) fn value_at(m: u8, vs: &[u8], i: usize) -> u8
    ensures { result ≡ value_at (bytes m) vs.now i }
{
    vs.get(i).copied().unwrap_or(0)
}

// The map at a place; past the last it is 0 everywhere.
fn map_at(maps: &[AffineMap], f: usize) -> AffineMap
    ensures { result ≡ map_at maps.now f }
{
    maps.get(f).copied().unwrap_or(AffineMap {
        constant: 0,
        columns: [0; 8],
    })
}

// The value at x of a map.
fn applied(m: u8, f: AffineMap, x: u8) -> u8
    ensures { result ≡ (bytes m).apply f x }
{
    field::apply(f.constant, f.columns, x)
}

// The XOR of bytes.
fn join(m: u8, xs: &[u8]) -> u8
    ensures { result ≡ joined (bytes m) xs.now }
{
    xs.iter().fold(0, |sum, x| sum ^ *x)
}

// The XOR of the values that the output line names.
pub(crate) fn join_outputs(m: u8, r: Routine, vs: &[u8]) -> u8
    requires { r.named ≤ most_shares }
    ensures { result ≡
        joined (bytes m) (map (value_at (bytes m) vs.now) (outputs_of r)) }
{
    r.outputs[..r.named]
        .iter()
        .fold(0, |sum, p| sum ^ value_at(m, vs, *p))
}
