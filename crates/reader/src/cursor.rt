// The place in the text behind the lines that were read, and the line ahead.
ghost use Rattle.std.specs.Prelude.{◌≡◌, ◌≤◌, length};
ghost use Rattle.reader.specs.Cursor.{look_at};

use grammar::line::Line;
use tokens::bytes;
use tokens::bytes::LINE_FEED;

// Where the next line starts, and how many lines stand before it.
#[derive(Clone, Copy, PartialEq, Eq, Debug)]
pub struct Cursor {
    pub at: usize,
    pub line: usize,
}

// The line ahead: one that a line feed ends, with the cursor behind it; one that lacks its line
// feed; or none. Three cases, each with its name, are plainer than one Option within another.
#[derive(Clone, Copy, PartialEq, Eq, Debug)]
pub enum Ahead {
    Line(Line, Cursor),
    Unended(Line),
    End,
}

// Looks at the line ahead of the cursor.
#[tactic(auto, unfolding(crate::specs::Cursor::line_end, crate::specs::Cursor::look_at))]
pub fn look(s: &[u8], c: Cursor) -> Ahead
    requires { (c.at ≤ length s.now) × (c.line ≤ c.at) }
    ensures { result ≡ look_at s.now c }
{
    let at = c.at;
    let end = bytes::find(s, at, LINE_FEED);
    if end < s.len() {
        return Ahead::Line(
            Line {
                from: at,
                len: end - at,
            },
            Cursor {
                at: end + 1,
                line: c.line + 1,
            },
        );
    }
    if at < s.len() {
        return Ahead::Unended(Line {
            from: at,
            len: s.len() - at,
        });
    }
    Ahead::End
}
