// What is handed out at a place of the text, and the place behind it: for any text and any place.
// A place is two numbers here, as in the theorems (`record_ahead`, specs/Reader.antt): any, also
// past the end; a Cursor is what they are brought to.
ghost use Rattle.std.specs.Prelude.{◌≡◌, ◌<◌, cond, length};
ghost use Rattle.tokens.specs.Ascii.{all, allowed};
ghost use Rattle.tokens.specs.Refusal.{number};
ghost use Rattle.reader.specs.Reader as reader;
ghost use Rattle.reader.specs.Handed.{RecordIs, LineIs, LastIs, HandedIs};

use crate::cursor::{Ahead, Cursor};
use crate::{cursor, formed};
use grammar::line::{Line, TextLine};
use grammar::record;
use grammar::record::Rec;
use tokens::refusal::Refusal;
use tokens::{bytes, split, word};

// A record with its line, or a refusal, and the place behind the line. The number of the line is
// the number of lines before that place.
#[derive(Clone, Copy)]
pub struct Handed {
    pub record: Result<(Line, Rec), Refusal>,
    pub behind: Cursor,
}

// The record ahead of a place, or its refusal 3, 4, 5 or 13; none at the end.
pub fn hand_out(s: &[u8], at: usize, line: usize) -> Option<Handed>
    ensures { HandedIs s.now at line result }
{
    let p = placed(s, at, line);
    match cursor::look(s, p) {
        Ahead::Line(l, c) => Some(hand_line(TextLine { text: s, line: l }, c)),
        Ahead::Unended(l) => Some(hand_last(s, l, p.line)),
        Ahead::End => None,
    }
}

// The place behind what is handed out at a place.
pub fn behind(s: &[u8], at: usize, line: usize) -> Cursor
    ensures { result ≡ reader.place_behind s.now at line }
{
    let p = placed(s, at, line);
    match cursor::look(s, p) {
        Ahead::Line(_, c) => c,
        Ahead::Unended(_) => Cursor {
            at: s.len(),
            line: p.line + 1,
        },
        Ahead::End => p,
    }
}

// Line l, which its line feed ends; c is behind it.
pub fn hand_line(l: TextLine, c: Cursor) -> Handed
    ensures { LineIs l.entry c result }
{
    let record = line_record(l);
    Handed { record, behind: c }
}

// The record of line l, which its line feed ends, or its refusal 3, 5 or 13.
fn line_record(l: TextLine) -> Result<(Line, Rec), Refusal>
    ensures { RecordIs l.entry result }
{
    if !bytes::all_allowed(l.bytes()) {
        return Err(Refusal::StrangeByte);
    }
    let w = word::word_of(l.piece(0));
    let Some(r) = record::record(l, w) else {
        return Err(Refusal::Form);
    };
    if !formed::has_fields(l, r) {
        return Err(Refusal::Form);
    }
    if formed::nests(l, r) {
        return Err(Refusal::TooDeep);
    }
    Ok((l.line, r))
}

// Line l, which lacks its line feed; n lines stand before it.
pub fn hand_last(s: &[u8], l: Line, n: usize) -> Handed
    requires { n < length s.now }
    ensures { LastIs s.now l n result }
{
    Handed {
        record: Err(last_refusal(split::part(s, l.from, l.len))),
        behind: Cursor {
            at: s.len(),
            line: n + 1,
        },
    }
}

// Why a last line is refused that lacks its line feed.
pub fn last_refusal(line: &[u8]) -> Refusal
    ensures { number result ≡ cond (all allowed line.now) 4 3 }
{
    if bytes::all_allowed(line) {
        Refusal::NoLineFeed
    } else {
        Refusal::StrangeByte
    }
}

// A place brought within the text.
#[tactic(auto, unfolding(crate::specs::Reader::placed))]
pub fn placed(s: &[u8], at: usize, line: usize) -> Cursor
    ensures { result ≡ reader.placed s.now at line }
{
    let end = at.min(s.len());
    Cursor {
        at: end,
        line: line.min(end),
    }
}
