// What a record is taken by.
ghost use Rattle.std.specs.Prelude.{◌≡◌, ◌≤◌, true};
ghost use Rattle.rules.specs.Order.{in_masked};
ghost use Rattle.lines.specs.Stage.{stage_of};

use crate::limited::Limited;
use grammar::line::TextLine;
use lookup::names::{Names, Set};
use lookup::table::Table;

// The names of the lines above, what else is known above a record, its line and the line's number,
// and whether it may stand there: a record that may stands no later than in the masked block. It is
// told, not refused at once: by the rules a record's own refusals 5 and 13 come before 6.
#[derive(Clone, Copy)]
pub struct Setting<'a> {
    pub table: &'a Table,
    pub held: Limited,
    pub line: TextLine<'a>,
    pub number: usize,
    pub stands: bool,
    ghost low: { stands ≡ true → stage_of held.known.stage ≤ in_masked },
}

impl<'a> Setting<'a> {
    ghost use Rattle.lines.specs.Taken.{set_of};

    // A set of the names of the lines above.
    pub(crate) fn set(self, names: Names) -> Set<'a>
        ensures { result ≡ set_of self.entry names }
    {
        Set {
            text: self.line.text,
            table: self.table,
            names,
        }
    }
}
