// A reader: it holds a text, and its place in it. Each function takes it apart and calls the one
// on the text and the place.
ghost use Rattle.std.specs.Prelude.{◌≡◌};
ghost use Rattle.reader.specs.Handed.{opened, moved_on, HandedIs};

use crate::handed;
use crate::handed::Handed;

// A text, where the next line starts, and how many lines stand before it.
#[derive(Clone, Copy)]
pub struct Reader<'a> {
    pub text: &'a [u8],
    pub at: usize,
    pub line: usize,
}

// A reader at the start of a text.
pub fn open<'a>(text: &'a [u8]) -> Reader<'a>
    ensures { result ≡ opened text.entry }
{
    Reader {
        text,
        at: 0,
        line: 0,
    }
}

// The record ahead of the reader, or its refusal 3, 4, 5 or 13; none at the end.
pub fn next<'a>(r: Reader<'a>) -> Option<Handed>
    ensures { HandedIs r.entry.text.now r.entry.at r.entry.line result }
{
    handed::hand_out(r.text, r.at, r.line)
}

// The reader behind what it hands out; at the end it stays.
pub fn moved<'a>(r: Reader<'a>) -> Reader<'a>
    ensures { result ≡ moved_on r.entry }
{
    let c = handed::behind(r.text, r.at, r.line);
    Reader {
        text: r.text,
        at: c.at,
        line: c.line,
    }
}
