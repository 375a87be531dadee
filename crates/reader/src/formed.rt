// Whether the lists and the formula of a record were read: refusal 5 is given where one was not;
// and whether it nests above 8: refusal 13.
ghost use Rattle.std.specs.Prelude.{◌≡◌};
ghost use Rattle.grammar.specs.TextLine.{pieces_of};
ghost use Rattle.grammar.specs.Recorded.{formula_of};
ghost use Rattle.reader.specs.Handed.{has_fields, deep, nests_in};

use grammar::line::TextLine;
use grammar::record::Rec;
use grammar::{formula, lists};
use tokens::limits::MOST_DEPTH;

// What the record of line l leaves in its line can be read.
pub(crate) fn has_fields(l: TextLine, r: Rec) -> bool
    ensures { result ≡ has_fields (pieces_of l.entry) r }
{
    match r {
        Rec::Map(_, _) => lists::read_columns(l).is_some(),
        Rec::Let(_) => formula::line_formula(l).is_some(),
        Rec::Output => lists::read_outputs(l).is_some(),
        _ => true,
    }
}

// The record of line l nests above 8.
pub(crate) fn nests(l: TextLine, r: Rec) -> bool
    ensures { result ≡ nests_in (pieces_of l.entry) r }
{
    match r {
        Rec::Let(_) => too_deep(l),
        _ => false,
    }
}

// The formula of a line nests above 8.
pub fn too_deep(l: TextLine) -> bool
    ensures { result ≡ deep (formula_of (pieces_of l.entry)) }
{
    match formula::line_formula(l) {
        Some(f) => MOST_DEPTH < f.depth,
        None => false,
    }
}
