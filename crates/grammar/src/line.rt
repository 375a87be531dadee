// A line of the text by its place, and its fields, each read by its form.
ghost use Rattle.std.specs.Prelude.{◌≡◌, ◌+◌, ◌≤◌, length, take, drop};
ghost use Rattle.tokens.specs.Split.{SpanIs};
ghost use Rattle.tokens.specs.Token.{read_hex, read_count, read_name, read_plain, read_term};
ghost use Rattle.grammar.specs.Line.{Inside, placed, name_at, term_at};

use tokens::bytes::TAB;
use tokens::limits::NO_PART;
use tokens::split::Span;
use tokens::token::{NameForm, TermForm};
use tokens::{split, token};

// Where a line stands, without its line feed. A type of its own: a Span is a piece within it.
#[derive(Clone, Copy, PartialEq, Eq, Debug)]
pub struct Line {
    pub from: usize,
    pub len: usize,
}

// A name: where the bytes before its dot stand, and the digit behind it, or NO_PART. A field's
// `NameForm` has no place in the text, and that is all in which the two differ.
#[derive(Clone, Copy, PartialEq, Eq, Debug)]
pub struct NameRef {
    pub at: usize,
    pub len: usize,
    pub part: u8,
}

// An operand in the text: a field's `TermForm` with its place.
#[derive(Clone, Copy, PartialEq, Eq, Debug)]
pub enum TermRef {
    Name(NameRef),
    Byte(u8),
}

// A line of a text: the text, and where the line stands in it.
#[derive(Clone, Copy)]
pub struct TextLine<'a> {
    pub text: &'a [u8],
    pub line: Line,
    pub ghost inside: { Inside text.now line },
}

impl<'a> TextLine<'a> {
    ghost use Rattle.grammar.specs.TextLine.{bytes_of, piece_of};

    // The bytes of the line.
    pub fn bytes(self) -> &'a [u8]
        ensures { result.now ≡ bytes_of self.entry }
    {
        split::part(self.text, self.line.from, self.line.len)
    }

    // Where piece k of the line stands in the text.
    pub fn field(self, k: usize) -> Span
        ensures { SpanIs self.entry.text.now result.at result.len (piece_of self.entry k) }
    {
        let p = split::piece(self.bytes(), TAB, k);
        Span {
            at: self.line.from + p.at,
            len: p.len,
        }
    }

    // The bytes of piece k.
    pub fn piece(self, k: usize) -> &'a [u8]
        ensures { result.now ≡ piece_of self.entry k }
    {
        let p = self.field(k);
        split::part(self.text, p.at, p.len)
    }

    // Two hex digits in field k.
    pub fn hex_field(self, k: usize) -> Option<u8>
        ensures { result ≡ read_hex (piece_of self.entry k) }
    {
        token::hex(self.piece(k))
    }

    // A digit 1 to 8 in field k.
    pub fn count_field(self, k: usize) -> Option<u8>
        ensures { result ≡ read_count (piece_of self.entry k) }
    {
        token::count(self.piece(k))
    }

    // A name in field k.
    pub fn name_field(self, k: usize) -> Option<NameRef>
        ensures { name_at self.entry.text.now result ≡ read_name (piece_of self.entry k) }
    {
        let f = self.field(k);
        name_at(self.text, f.at, f.len)
    }

    // A name without a dot part in field k.
    #[tactic(auto, unfolding(crate::specs::Line::name_in, tokens::specs::Token::read_plain))]
    pub fn plain_field(self, k: usize) -> Option<NameRef>
        ensures { name_at self.entry.text.now result ≡ read_plain (piece_of self.entry k) }
    {
        let n = self.name_field(k)?;
        (n.part == NO_PART).then_some(n)
    }

    // An operand in field k.
    pub fn term_field(self, k: usize) -> Option<TermRef>
        ensures { term_at self.entry.text.now result ≡ read_term (piece_of self.entry k) }
    {
        let f = self.field(k);
        term_at(self.text, f.at, f.len)
    }
}

// The name of the len bytes at a place of the text.
pub fn name_at(s: &[u8], at: usize, len: usize) -> Option<NameRef>
    ensures { name_at s.now result ≡ read_name (take len (drop at s.now)) }
{
    let n = token::name(split::part(s, at, len))?;
    Some(placed(at, n))
}

// The operand of the len bytes at a place of the text.
pub fn term_at(s: &[u8], at: usize, len: usize) -> Option<TermRef>
    ensures { term_at s.now result ≡ read_term (take len (drop at s.now)) }
{
    match token::term(split::part(s, at, len))? {
        TermForm::Name(n) => Some(TermRef::Name(placed(at, n))),
        TermForm::Byte(v) => Some(TermRef::Byte(v)),
    }
}

// The name of a form, at its place in the text.
fn placed(at: usize, n: NameForm) -> NameRef
    ensures { result ≡ placed at n }
{
    NameRef {
        at,
        len: n.letters,
        part: n.part,
    }
}
