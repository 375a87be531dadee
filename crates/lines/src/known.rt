// What the lines above have given, in numbers: the stage, the counts, the result and the outputs.
ghost use Rattle.std.specs.Prelude.{◌≡◌, ◌≤◌, List, ℕ};
ghost use Rattle.grammar.specs.declared.line.NameRef.{NameRef};
ghost use Rattle.rules.specs.Limits.{most_statements};
ghost use Rattle.lookup.specs.Names.{names_in};
ghost use Rattle.lines.specs.Known.{block_names};
ghost use Rattle.lines.specs.Added.{blank, stated, crowded};

use crate::limited::Limited;
use crate::order::Stage;
use lookup::names::Names;
use rules::limits::{MASKED_FROM, MOST_STATEMENTS, MOST_VARIABLES, ORIGIN_FROM};
use tokens::limits::MOST_SHARES;

// The state of reading between two lines, but for the names, maps and statements themselves. The
// places of the outputs are an array with their number beside it: it is handed on by value, and the
// definitions (`state_in`) speak of both.
#[derive(Clone, Copy)]
pub struct Known {
    pub stage: Stage,
    pub shares: usize,
    pub mapped: usize,
    pub inputs: usize,
    pub variables: usize,
    pub origin: usize,
    pub masked: usize,
    pub wholes: usize,
    pub parts: usize,
    pub result: usize,
    pub outputs: [usize; MOST_SHARES],
    pub named: usize,
}

// Before the first line.
#[tactic(auto, unfolding(crate::specs::Added::blank))]
pub fn begin() -> Limited
    ensures { result.known ≡ blank }
{
    let known = Known {
        stage: Stage::Start,
        shares: 0,
        mapped: 0,
        inputs: 0,
        variables: 0,
        origin: 0,
        masked: 0,
        wholes: 0,
        parts: 0,
        result: 0,
        outputs: [0; MOST_SHARES],
        named: 0,
    };
    Limited { known }
}

// The names of the block that a statement stands in. Sets of names are written where they are asked
// for, since each shows its own bound.
pub(crate) fn block_names(h: Limited) -> Names
    ensures { (s : List ℕ) (t : List NameRef) → names_in s t result ≡ block_names s t h.known }
{
    let k = h.known;
    if k.stage.is_masked() {
        return Names {
            from: MASKED_FROM,
            count: k.parts,
        };
    }
    Names {
        from: ORIGIN_FROM,
        count: k.wholes,
    }
}

// One statement more would be one too many, or draw a variable too many.
pub(crate) fn is_crowded(h: Limited, drawn: usize) -> bool
    requires { drawn ≤ 1 }
    ensures { result ≡ crowded h.known drawn }
{
    let k = h.known;
    if MOST_STATEMENTS < k.origin + k.masked + 1 {
        return true;
    }
    MOST_VARIABLES < k.variables + drawn
}

// So many statements more in the block that they stand in, with the variables that they draw.
pub(crate) fn with_statements(h: Limited, drawn: usize, n: usize) -> Known
    requires { (drawn ≤ 1) × (n ≤ most_statements) }
    ensures { result ≡ stated h.known drawn n }
{
    let k = h.known;
    let mut next = k;
    if k.stage.is_masked() {
        next.variables = k.variables + drawn;
        next.masked = k.masked + n;
        next.parts = k.parts + n;
        return next;
    }
    next.origin = k.origin + n;
    next.wholes = k.wholes + n;
    next
}
