// Idle inputs: those of which no share has a power above 0 in any term of the original's result.
// A buffer, its count and its width stay three parameters: a struct of them would have these three
// readers alone, and each asks for another number of variables.
ghost use Rattle.std.specs.Prelude.{◌≡◌, ℕ, ◌+◌, ◌*◌};
ghost use Rattle.poly.specs.Occurs.{occurs, some_occurs};
ghost use Rattle.text.specs.Routine.{routine_of};
ghost use Rattle.verdict.specs.Idle.{failing, idle};
ghost use Rattle.values.specs.Shelf.{terms_at};
ghost use Rattle.judge.specs.Idle.{Holding};
ghost use Rattle.judge.specs.Settle.{LastAsked};

use survey::survey::origin_scope;
use text::accepted::Accepted;
use values::load::load;
use values::shelf::Shelf;
use values::source::size_of;
use values::view::View;

// One of the first k terms, each of w bytes, has a power of variable v above 0.
fn occurs(b: &[u8], k: usize, w: usize, v: usize) -> bool
    requires { Holding b.now k w (v + 1) }
    ensures { result ≡ occurs v (terms_at w b.now 0 k) }
{
    (0..k).any(|i| b[i * w + v + 1] != 0)
}

// So it is for one of the n variables from `first` on.
fn some_occurs(b: &[u8], k: usize, w: usize, first: usize, n: usize) -> bool
    requires { Holding b.now k w (first + n) }
    ensures { result ≡ some_occurs first n (terms_at w b.now 0 k) }
{
    (first..first + n).any(|v| occurs(b, k, w, v))
}

// How many inputs, each of so many shares, have no share that occurs in the first k terms.
fn count_idle(inputs: usize, shares: usize, b: &[u8], k: usize, w: usize) -> usize
    requires { Holding b.now k w (inputs * shares) }
    ensures { result ≡ failing inputs
        (λ (i : ℕ). some_occurs (i * shares) shares (terms_at w b.now 0 k)) }
{
    (0..inputs)
        .filter(|i| !some_occurs(b, k, w, *i * shares, shares))
        .count()
}

// How many inputs are idle, where `left` holds the values; the result is loaded in `right`.
pub(crate) fn idle(r: Accepted, d: Shelf, left: &[u8], right: &mut [u8]) -> usize
    requires { LastAsked r.routine d left.now right.old }
    ensures { result ≡ idle (routine_of r.routine) }
{
    let routine = r.routine;
    let scope = origin_scope(routine);
    let a = View { scope, shelf: d }.place(routine.result);
    let w = routine.variables + 1;
    load(left, a, right, 0, w);
    count_idle(routine.inputs, routine.shares, right, size_of(a), w)
}
