// A text: the routine that it holds, or its refusal.
ghost use Rattle.std.specs.Prelude.{◌≡◌, List, ℕ, ◌≤◌};
ghost use Rattle.grammar.specs.declared.line.NameRef.{NameRef};
ghost use Rattle.rules.specs.Limits.{most_bytes};
ghost use Rattle.rules.specs.Read.{read_text};
ghost use Rattle.text.specs.From.{read_from, ReadsOn, Stands, LinesAre};
ghost use Rattle.lines.specs.Known.{arrays, kept};
ghost use Rattle.text.specs.Reading.{ReadingIs, EndIs, UnendedIs, answer_of};

use crate::accepted::Accepted;
use crate::routine::Routine;
use crate::{routine, store};
use grammar::line::{Line, TextLine};
use lines::known;
use lines::limited::Limited;
use lines::line::take_line;
use lines::order::Stage;
use lookup::table;
use reader::cursor::{Ahead, Cursor};
use reader::reader::{Reader, open};
use reader::{cursor, handed};
use rules::limits::{MOST_BYTES, MOST_MAPS, MOST_STATEMENTS};
use rules::types::{AffineMap, Op, Statement};
use tokens::refusal::Refusal;
use tokens::split;

// Why a text is refused, and at which line.
#[derive(Clone, Copy, PartialEq, Eq, Debug)]
pub struct Refused {
    pub refusal: Refusal,
    pub line: usize,
}

// The text ends behind line n.
pub(crate) fn end(
    h: Limited,
    maps: [AffineMap; MOST_MAPS],
    statements: [Statement; MOST_STATEMENTS],
    n: usize,
) -> Result<Routine, Refused>
    requires { n ≤ most_bytes }
    ensures { (s : List ℕ) (t : List NameRef) →
        EndIs s (kept t h.known (arrays maps statements)) n result }
{
    let k = h.known;
    if k.stage != Stage::End {
        let past = n + 1;
        return Err(Refused {
            refusal: Refusal::Order,
            line: past,
        });
    }
    let outputs = k.outputs;
    Ok(Routine {
        shares: k.shares,
        maps,
        mapped: k.mapped,
        inputs: k.inputs,
        variables: k.variables,
        statements,
        origin: k.origin,
        masked: k.masked,
        result: k.result,
        outputs,
        named: k.named,
        line: n,
    })
}

// The last line lacks its line feed; n lines stand before it.
pub(crate) fn unended(s: &[u8], l: Line, n: usize) -> Result<Routine, Refused>
    requires { n ≤ most_bytes }
    ensures { UnendedIs s.now l n result }
{
    Err(Refused {
        refusal: handed::last_refusal(split::part(s, l.from, l.len)),
        line: n + 1,
    })
}

// The reading of a text of any length: a reader is opened on it, and reads all of it.
pub fn read(s: &[u8]) -> Result<Accepted, Refused>
    ensures { ReadingIs (answer_of result) (read_text s.now) }
{
    let routine = read_all(open(s))?;
    Ok(Accepted { routine })
}

// The reading of the lines from a reader on.
pub fn read_all<'a>(r: Reader<'a>) -> Result<Routine, Refused>
    ensures { ReadsOn r.entry result }
{
    read_from(r.text, r.at, r.line)
}

// The reading of the lines from a place on.
pub fn read_from(s: &[u8], at: usize, line: usize) -> Result<Routine, Refused>
    ensures { ReadingIs result (read_from s.now at line) }
{
    if MOST_BYTES < s.len() {
        return Err(Refused {
            refusal: Refusal::LongText,
            line: 0,
        });
    }
    let c = handed::placed(s, at, line);
    read_lines(s, c)
}

// The reading of the lines from a cursor on. Each is taken, and what it gives is stored.
pub(crate) fn read_lines(s: &[u8], from: Cursor) -> Result<Routine, Refused>
    requires { Stands s.now from }
    ensures { LinesAre s.now from result }
{
    let none = routine::empty();
    let mut maps = none.maps;
    let mut statements = none.statements;
    let mut table = table::none();
    let mut ops = [Op::Rand(0); MOST_STATEMENTS];
    let mut h = known::begin();
    let mut c = from;
    // a cursor by value over the slice is the form that the rules ask for
    loop {
        match cursor::look(s, c) {
            Ahead::Line(l, next) => {
                let line = next.line;
                let l = TextLine { text: s, line: l };
                let step = take_line(l, &table, h, line, &mut ops).map_err(|refusal| Refused {
                    refusal,
                    line,
                })?;
                let put = step.put;
                store::store_statements(&mut statements, h, put, &ops);
                store::store_map(&mut maps, h, put);
                store::store_names(&mut table, h, put);
                h = step.held;
                c = next;
            }
            Ahead::Unended(l) => return unended(s, l, c.line),
            Ahead::End => return end(h, maps, statements, c.line),
        }
    }
}
