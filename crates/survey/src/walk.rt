// A block of statements walked from the top: each value is formed above the others, unless what
// stands and the raw size exceed the limit.
ghost use Rattle.text.specs.Routine.{maps_of};
ghost use Rattle.survey.specs.Walk.{WalkAsked, Walked};

use text::routine::Routine;
use values::raw::raw_size;
use values::shelf::Shelf;
use values::tables::Tables;
use values::value::form_value;
use values::view::View;

// Walks the statements from..to: the directory of the values that stand, or the line of the first
// statement at which what stands and the raw size exceed `most` terms.
// Its parameters stay apart: buffers lent anew for each block, and numbers that it alone reads.
pub(crate) fn walk_block(
    m: u8,
    t: Tables,
    r: Routine,
    from: usize,
    to: usize,
    v: View,
    left: &mut [u8],
    right: &mut [u8],
    w: usize,
    most: usize,
) -> Result<Shelf, usize>
    requires { WalkAsked m t.lists t.constants (maps_of r) r.statements from to v.scope v.shelf
        left.old right.old w most }
    ensures { Walked m (maps_of r) r.statements from to v.scope v.shelf
        left.old w most left.new result }
{
    let scope = v.scope;
    let mut shelf = v.shelf;
    // the statements before this one are walked
    for statement in &r.statements[from..to] {
        let found = View { scope, shelf }.find(statement.op);
        let raw = raw_size(t, found);
        if most - shelf.top < raw {
            return Err(statement.line);
        }
        let k = form_value(m, t, found, left, shelf.top, right, w);
        shelf.put(k);
    }
    Ok(shelf)
}
