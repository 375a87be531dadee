// The record of a line: its word, the number of its fields, and the form of each.
ghost use Rattle.std.specs.Prelude.{◌≡◌, length};
ghost use Rattle.grammar.specs.Line.{pieces_in};
ghost use Rattle.grammar.specs.TextLine.{pieces_of};
ghost use Rattle.grammar.specs.Record.{may_have, assigned, operands, image};
ghost use Rattle.grammar.specs.Recorded.{Reads, record_at, form_at, form_in, binary};

use crate::line::{Line, NameRef, TermRef, TextLine};
use tokens::bytes::TAB;
use tokens::limits::{COLUMNS, MOST_SHARES};
use tokens::split;
use tokens::word::Word;

// An operation on two operands.
#[derive(Clone, Copy, PartialEq, Eq, Debug)]
pub enum Binary {
    Xor,
    Mul,
}

// What a statement computes, with its operands as they stand in the text.
#[derive(Clone, Copy, PartialEq, Eq, Debug)]
pub enum FormRead {
    Set(TermRef),
    Two(Binary, TermRef, TermRef),
    App(NameRef, TermRef),
    Rand,
}

// A record with its names by place. The columns of a map, the formula of a `let` and the names of
// an output stay in the line.
#[derive(Clone, Copy, PartialEq, Eq, Debug)]
pub enum Rec {
    Shares(u8),
    Map(NameRef, u8),
    Input(NameRef),
    Origin,
    Assign(NameRef, FormRead),
    Let(NameRef),
    Result(NameRef),
    Masked,
    Output,
}

// The record that a line makes, its word known.
#[tactic(auto, unfolding(crate::specs::Open::record_open))]
pub fn record(l: TextLine, w: Word) -> Option<Rec>
    ensures { Reads l.entry result w }
{
    if !fits_word(l.text, l.line, w) {
        return None;
    }
    match w {
        Word::Shares => Some(Rec::Shares(l.count_field(1)?)),
        Word::Map => Some(Rec::Map(l.plain_field(1)?, l.hex_field(2)?)),
        Word::Input => Some(Rec::Input(l.plain_field(1)?)),
        Word::Origin => Some(Rec::Origin),
        Word::Set => assign(l, FormRead::Set(l.term_field(2)?)),
        Word::Xor => assign(l, two_form(l, Binary::Xor)?),
        Word::Mul => assign(l, two_form(l, Binary::Mul)?),
        Word::App => assign(l, app_form(l)?),
        Word::Let => Some(Rec::Let(l.name_field(1)?)),
        Word::Rand => assign(l, FormRead::Rand),
        Word::Result => Some(Rec::Result(l.name_field(1)?)),
        Word::Masked => Some(Rec::Masked),
        Word::Output => Some(Rec::Output),
        Word::Unknown => None,
    }
}

// The line has a number of fields that the word may have.
pub fn fits_word(s: &[u8], l: Line, w: Word) -> bool
    ensures { result ≡ may_have w (length (pieces_in s.now l)) }
{
    may_have(w, piece_count(s, l))
}

// How many pieces the line has, the word among them.
#[tactic(auto, unfolding(crate::specs::Line::pieces_in))]
pub fn piece_count(s: &[u8], l: Line) -> usize
    ensures { result ≡ length (pieces_in s.now l) }
{
    split::count(split::part(s, l.from, l.len), TAB)
}

// A line of this word may have n pieces, the word among them.
pub fn may_have(w: Word, n: usize) -> bool
    ensures { result ≡ may_have w n }
{
    match w {
        Word::Shares => n == 2,
        Word::Map => n == 3 + COLUMNS,
        Word::Input => n == 2,
        Word::Origin => n == 1,
        Word::Set => n == 3,
        Word::Xor => n == 4,
        Word::Mul => n == 4,
        Word::App => n == 4,
        Word::Let => n == 3,
        Word::Rand => n == 2,
        Word::Result => n == 2,
        Word::Masked => n == 1,
        Word::Output => 2 <= n && n <= 1 + MOST_SHARES,
        Word::Unknown => false,
    }
}

// A statement that gives the name of field 1.
#[tactic(auto, unfolding(crate::specs::Recorded::record_in))]
pub(crate) fn assign(l: TextLine, f: FormRead) -> Option<Rec>
    ensures { record_at l.entry.text.now (pieces_of l.entry) result
        ≡ assigned (pieces_of l.entry) (Some (form_in l.entry.text.now f)) }
{
    Some(Rec::Assign(l.name_field(1)?, f))
}

// `xor` or `mul` on two operands.
pub(crate) fn two_form(l: TextLine, f: Binary) -> Option<FormRead>
    ensures { form_at l.entry.text.now result ≡ operands (binary f) (pieces_of l.entry) }
{
    let a = l.term_field(2)?;
    let b = l.term_field(3)?;
    Some(FormRead::Two(f, a, b))
}

// A map on an operand.
pub(crate) fn app_form(l: TextLine) -> Option<FormRead>
    ensures { form_at l.entry.text.now result ≡ image (pieces_of l.entry) }
{
    let f = l.plain_field(2)?;
    let a = l.term_field(3)?;
    Some(FormRead::App(f, a))
}
