// The routine that a text holds, as a value: arrays of which the counted front parts are in use.
ghost use Rattle.std.specs.Prelude.{◌≡◌};
ghost use Rattle.text.specs.Routine.{nothing};

use rules::limits::{MOST_MAPS, MOST_STATEMENTS};
use rules::types::{AffineMap, Op, Operand, Statement};
use tokens::limits::{COLUMNS, MOST_SHARES};

// The statements of the origin block stand first, those of the masked block behind them. The arrays
// have room for the most, with no heap, and their lengths stand beside them: a routine is handed on
// by value, which the kit's ArrayVec is not, and the definitions (`routine_of`) speak of both.
#[derive(Clone, Copy)]
pub struct Routine {
    pub shares: usize,
    pub maps: [AffineMap; MOST_MAPS],
    pub mapped: usize,
    pub inputs: usize,
    pub variables: usize,
    pub statements: [Statement; MOST_STATEMENTS],
    pub origin: usize,
    pub masked: usize,
    pub result: usize,
    pub outputs: [usize; MOST_SHARES],
    pub named: usize,
    pub line: usize,
}

// The routine of a text of which nothing is read yet.
#[tactic(auto, unfolding(crate::specs::Routine::nothing))]
pub(crate) fn empty() -> Routine
    ensures { result ≡ nothing }
{
    let map = AffineMap {
        constant: 0,
        columns: [0; COLUMNS],
    };
    let maps = [map; MOST_MAPS];
    let blank = Statement {
        op: Op::Set(Operand::Byte(0)),
        line: 0,
    };
    let statements = [blank; MOST_STATEMENTS];
    Routine {
        shares: 0,
        maps,
        mapped: 0,
        inputs: 0,
        variables: 0,
        statements,
        origin: 0,
        masked: 0,
        result: 0,
        outputs: [0; MOST_SHARES],
        named: 0,
        line: 0,
    }
}
