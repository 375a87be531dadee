// Sets of names in a table.
ghost use Rattle.std.specs.Prelude.{◌+◌, ◌≤◌};
ghost use Rattle.rules.specs.Limits.{most_entries};

use crate::table::Table;

// A set of names in the order of giving: its first entry in the table, and how many it has. All of
// them are in the table. Two numbers and no slice: the table changes from line to line.
#[derive(Clone, Copy)]
pub struct Names {
    pub from: usize,
    pub count: usize,
    ghost within: { from + count ≤ most_entries },
}

// A set of names in a table, by their places in a text.
#[derive(Clone, Copy)]
pub struct Set<'a> {
    pub text: &'a [u8],
    pub table: &'a Table,
    pub names: Names,
}
