// Both blocks walked, the origin block first: the values of all statements, or the line at which
// the count exceeds the limit.
ghost use Rattle.std.specs.Prelude.{◌≡◌};
ghost use Rattle.survey.specs.Survey.{origin_scope, masked_scope, Lent, Surveyed};

use crate::table::list_maps;
use crate::walk::walk_block;
use text::accepted::Accepted;
use text::routine::Routine;
use values::shelf::Shelf;
use values::source::Scope;
use values::view::View;
use verdict::MODULUS;

// The most terms that may stand.
pub const MOST_TERMS: usize = 3840;

// The origin block begins with the inputs, each the sum of its shares; it draws nothing.
pub fn origin_scope(r: Routine) -> Scope
    ensures { result ≡ origin_scope r }
{
    Scope {
        begins: r.inputs,
        width: r.shares,
        base: 0,
        drawn: 0,
    }
}

// The masked block begins with the shares of all inputs, and may draw every variable.
pub fn masked_scope(r: Accepted) -> Scope
    ensures { result ≡ masked_scope r.routine }
{
    Scope {
        begins: r.routine.inputs * r.routine.shares,
        width: 1,
        base: r.routine.origin,
        drawn: r.routine.variables,
    }
}

// Walks both blocks, the masked one above the values of the origin block: the directory of all
// values, or the line at which the count exceeds the limit.
pub fn survey(r: Accepted, left: &mut [u8], right: &mut [u8]) -> Result<Shelf, usize>
    requires { Lent left.old right.old }
    ensures { Surveyed r.routine left.new result }
{
    let routine = r.routine;
    let t = list_maps(MODULUS, &routine.maps[..routine.mapped]);
    let w = routine.variables + 1;
    let scope = origin_scope(routine);
    let shelf = Shelf::empty();
    let d = walk_block(
        MODULUS,
        t,
        routine,
        0,
        routine.origin,
        View { scope, shelf },
        left,
        right,
        w,
        MOST_TERMS,
    )?;
    let scope = masked_scope(r);
    let v = View { scope, shelf: d };
    let from = routine.origin;
    let to = from + routine.masked;
    walk_block(MODULUS, t, routine, from, to, v, left, right, w, MOST_TERMS)
}
