// Names by their place in the text, in a table.
ghost use Rattle.std.specs.Prelude.{◌≡◌, ◌+◌, ◌≤◌, length, map};
ghost use Rattle.rules.specs.Limits.{most_entries};
ghost use Rattle.tokens.specs.Token.{same_name};
ghost use Rattle.grammar.specs.Line.{name_in};
ghost use Rattle.lookup.specs.Names.{put_shares};
ghost use Rattle.lookup.specs.Found.{name_found};

use grammar::line::NameRef;
use rules::limits::ENTRIES;
use tokens::{bytes, split};

// A table of names: where each stands, its length and its part.
pub type Table = [NameRef; ENTRIES];

// A table without names.
pub fn none() -> Table
    ensures { length result ≡ most_entries }
{
    let nowhere = NameRef {
        at: 0,
        len: 0,
        part: 0,
    };
    [nowhere; ENTRIES]
}

// The two names have the same bytes and the same part.
#[tactic(auto, unfolding(tokens::specs::Token::same_name, grammar::specs::Line::name_in))]
pub(crate) fn is_same(s: &[u8], n: NameRef, m: NameRef) -> bool
    ensures { result ≡ same_name (name_in s.now n) (name_in s.now m) }
{
    n.part == m.part && bytes::same(split::part(s, n.at, n.len), split::part(s, m.at, m.len))
}

// The place of the first of the names that is the same as n, where there is one.
pub(crate) fn place(s: &[u8], names: &[NameRef], n: NameRef) -> Option<usize>
    ensures { result ≡ name_found (map (name_in s.now) names.now) (name_in s.now n) }
{
    names.iter().position(|m| is_same(s, n, *m))
}

// Stores the shares x.0, x.1 .. of an input, k of them, as the entries from `at` on.
pub fn put_shares(t: &mut Table, at: usize, x: NameRef, k: usize)
    requires { (k ≤ 255) × (at + k ≤ most_entries) }
    ensures { t.new ≡ put_shares t.old at x k }
{
    for i in 0..k {
        t[at + i] = NameRef {
            at: x.at,
            len: x.len,
            part: i as u8,
        };
    }
}
