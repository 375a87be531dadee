// The names of an output line.
ghost use Rattle.std.specs.Prelude.{◌≤◌};
ghost use Rattle.tokens.specs.Limits.{most_shares};

use crate::line::NameRef;
use tokens::limits::MOST_SHARES;

// The names by place, in order: no more than the array holds. It is handed on by value, which the
// kit's ArrayVec is not.
#[derive(Clone, Copy)]
pub struct Outputs {
    pub items: [NameRef; MOST_SHARES],
    pub count: usize,
    ghost few: { count ≤ most_shares },
}
