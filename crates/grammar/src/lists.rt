// The lists of a line: the columns of a map, and the names of an output.
ghost use Rattle.std.specs.Prelude.{◌≡◌};
ghost use Rattle.grammar.specs.TextLine.{pieces_of};
ghost use Rattle.grammar.specs.Recorded.{columns_of, names_of, outputs_in};

use crate::line::{NameRef, TextLine};
use crate::outputs::Outputs;
use crate::record;
use tokens::limits::{COLUMNS, MOST_SHARES};
use tokens::word::Word;

// Reads the columns of a map line, where each is two hex digits.
pub fn read_columns(l: TextLine) -> Option<[u8; COLUMNS]>
    ensures { result ≡ columns_of (pieces_of l.entry) }
{
    if !record::fits_word(l.text, l.line, Word::Map) {
        return None;
    }
    let mut bytes = [0; COLUMNS];
    for j in 0..COLUMNS {
        bytes[j] = l.hex_field(3 + j)?;
    }
    Some(bytes)
}

// Reads the names of an output line, where each is one.
pub fn read_outputs(l: TextLine) -> Option<Outputs>
    ensures { outputs_in l.entry.text.now result ≡ names_of (pieces_of l.entry) }
{
    let n = record::piece_count(l.text, l.line);
    if !record::may_have(Word::Output, n) {
        return None;
    }
    let nowhere = NameRef {
        at: 0,
        len: 0,
        part: 0,
    };
    let mut items = [nowhere; MOST_SHARES];
    let count = n - 1;
    for j in 0..count {
        items[j] = l.name_field(1 + j)?;
    }
    Some(Outputs { items, count })
}
