// A formula on one line, read where it stands: its form at any depth, how deep it nests, and how
// many operations it has.
ghost use Rattle.std.specs.Prelude.{◌≡◌, ◌+◌, ◌-◌, ◌≤◌, length, take, drop, IfSome};
ghost use Rattle.tokens.specs.Ascii.{is_mark, closing};
ghost use Rattle.tokens.specs.Split.{until};
ghost use Rattle.tokens.specs.Token.{is_some, read_term, read_plain};
ghost use Rattle.grammar.specs.TextLine.{pieces_of};
ghost use Rattle.grammar.specs.Formula.{operation_of, operation_at, front, read_formula};
ghost use Rattle.grammar.specs.Recorded.{formula_of};
ghost use Rattle.grammar.specs.Measured.{alone, leaf, stands_at, passed_over, passed_with, joined_of};
ghost use Rattle.grammar.specs.Measured.{joined_with, FormulaIs, PlaceIs, Joins, MeasureIs};

use crate::line::TextLine;
use crate::record;
use crate::record::Binary;
use tokens::limits::NO_PART;
use tokens::word::Word;
use tokens::{bytes, split, token};

// What stands before the first mark: an operation with its (, another word with one, or an operand.
// The definition `operation_at` tells the four apart, and the laws of reading go by its cases.
#[derive(Clone, Copy, PartialEq, Eq, Debug)]
pub enum Operation {
    Two(Binary),
    Image,
    Unknown,
    Operand,
}

// Where a part of a formula ends, how deep it nests, and how many operations it has.
#[derive(Clone, Copy, PartialEq, Eq, Debug)]
pub struct FormulaRead {
    pub end: usize,
    pub depth: usize,
    pub operations: usize,
}

// The formula of a line.
pub fn line_formula(l: TextLine) -> Option<FormulaRead>
    ensures { MeasureIs result (formula_of (pieces_of l.entry)) }
{
    if !record::fits_word(l.text, l.line, Word::Let) {
        return None;
    }
    read_formula(l.piece(2))
}

// The formula of a field.
pub fn read_formula(f: &[u8]) -> Option<FormulaRead>
    ensures { MeasureIs result (read_formula f.now) }
{
    let r = formula(f, 0)?;
    (r.end == f.len()).then_some(r)
}

// The formula at place `at`, read with all that it nests.
pub fn formula(f: &[u8], at: usize) -> Option<FormulaRead>
    requires { at ≤ length f.now }
    ensures { FormulaIs f.now at result }
{
    let mark = bytes::find_mark(f, at);
    let first = match operation_at(f, at, mark) {
        Operation::Two(_) => formula(f, mark + 1)?,
        Operation::Image => map_name(f, mark + 1)?,
        Operation::Unknown => return None,
        Operation::Operand => return operand(f, at, mark),
    };
    let left = passed(f, first, b',')?;
    let second = formula(f, left.end);
    paired(f, left, second)
}

// The operation at place `at`, whose first mark is known.
pub fn operation_at(f: &[u8], at: usize, mark: usize) -> Operation
    requires { (at ≤ length f.now) × (mark ≡ at + until is_mark (drop at f.now)) }
    ensures { result ≡ operation_at (drop at f.now) }
{
    if stands(f, mark, b'(') {
        return operation_of(split::part(f, at, mark - at));
    }
    Operation::Operand
}

// The operation that a word before ( is.
// Compared in turn, and not by a table as the words of records are: it is asked twice for each
// operation, and the three are as short to write.
#[tactic(auto, unfolding(crate::specs::Formula::operation_of, tokens::specs::Ascii::ascii))]
pub fn operation_of(w: &[u8]) -> Operation
    ensures { result ≡ operation_of w.now }
{
    if bytes::same(w, b"xor") {
        return Operation::Two(Binary::Xor);
    }
    if bytes::same(w, b"mul") {
        return Operation::Two(Binary::Mul);
    }
    if bytes::same(w, b"app") {
        return Operation::Image;
    }
    Operation::Unknown
}

// An operand from place `at` to the mark.
pub fn operand(f: &[u8], at: usize, mark: usize) -> Option<FormulaRead>
    requires { at ≤ mark }
    ensures { result ≡ leaf (is_some (read_term (take (mark - at) (drop at f.now)))) mark }
{
    let _ = token::term(split::part(f, at, mark - at))?;
    Some(part_read(mark))
}

// The name of a map at place `at`, up to the first mark.
pub fn map_name(f: &[u8], at: usize) -> Option<FormulaRead>
    requires { at ≤ length f.now }
    ensures { result ≡ leaf (is_some (read_plain (front (drop at f.now))))
        (at + until is_mark (drop at f.now)) }
{
    let mark = bytes::find_mark(f, at);
    let n = token::name(split::part(f, at, mark - at))?;
    (n.part == NO_PART).then_some(part_read(mark))
}

// What was read, and behind it the byte m.
#[tactic(auto, unfolding(crate::specs::Measured::passed_over))]
pub(crate) fn passed(f: &[u8], r: FormulaRead, m: u8) -> Option<FormulaRead>
    requires { r.end ≤ length f.now }
    ensures { result ≡ passed_over f.now r m }
{
    stands(f, r.end, m).then_some(FormulaRead {
        end: r.end + 1,
        depth: r.depth,
        operations: r.operations,
    })
}

// An operation on part a and the second part, with its bracket ) behind it; none where either was
// not read.
#[tactic(auto, unfolding(crate::specs::Measured::passed_over))]
pub(crate) fn paired(f: &[u8], a: FormulaRead, second: Option<FormulaRead>) -> Option<FormulaRead>
    requires { PlaceIs f.now 1 a × IfSome second (PlaceIs f.now a.end) }
    ensures { result ≡ joined_with a (passed_with f.now second closing) }
{
    let b = second?;
    let right = passed(f, b, b')')?;
    Some(joined(a, right))
}

// An operation on two parts, that ends where b does.
pub(crate) fn joined(a: FormulaRead, b: FormulaRead) -> FormulaRead
    requires { Joins a b }
    ensures { result ≡ joined_of a b }
{
    FormulaRead {
        end: b.end,
        depth: a.depth.max(b.depth) + 1,
        operations: a.operations + b.operations + 1,
    }
}

// The byte m stands at a place.
#[tactic(auto, unfolding(crate::specs::Measured::stands_at))]
pub fn stands(f: &[u8], at: usize, m: u8) -> bool
    ensures { result ≡ stands_at f.now at m }
{
    at < f.len() && f[at] == m
}

// A part of a formula without operations, that ends at a place.
pub(crate) fn part_read(end: usize) -> FormulaRead
    ensures { result ≡ alone end }
{
    FormulaRead {
        end,
        depth: 0,
        operations: 0,
    }
}
