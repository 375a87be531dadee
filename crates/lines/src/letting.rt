// A `let`: its formula looked up, and its operations written.
ghost use Rattle.std.specs.Prelude.{◌≡◌, ◌+◌, ◌≤◌, length};
ghost use Rattle.grammar.specs.declared.record.Rec.TheVariants as rec;
ghost use Rattle.grammar.specs.Line.{name_in};
ghost use Rattle.grammar.specs.Formula.{read_formula};
ghost use Rattle.grammar.specs.Recorded.{let_in};
ghost use Rattle.lines.specs.Lets.{field_of};
ghost use Rattle.lines.specs.Lets.{LetRoom, LetWritten, Shallow};
ghost use Rattle.lines.specs.Known.{block_names, map_names};
ghost use Rattle.lines.specs.Taken.{Took, record_at, text_of, names_above};

use crate::known;
use crate::limited::Limited;
use crate::setting::Setting;
use crate::step::{Letting, Put, Step, first_fault};
use grammar::formula;
use grammar::line::NameRef;
use lookup::compile;
use lookup::compile::{Lookup, Ops};
use lookup::names::Names;
use rules::limits::MOST_STATEMENTS;
use rules::types::Op;
use tokens::limits::MOST_DEPTH;
use tokens::refusal::Refusal;
use tokens::split;

// A `let`.
pub(crate) fn take_let(here: Setting, x: NameRef, ops: &mut Ops) -> Result<Step, Refusal>
    ensures { Took ops.new here.entry (record_at here.entry (rec.Let x)) result
        × (length ops.new ≡ length ops.old) }
{
    let read = formula::line_formula(here.line).ok_or(Refusal::Form)?;
    if MOST_DEPTH < read.depth {
        return Err(Refusal::TooDeep);
    }
    let f = here.line.field(2);
    let formula = Letting {
        at: f.at,
        len: f.len,
        count: read.operations.max(1),
        line: here.number,
    };
    take_shallow(here, x, formula, ops)
}

// A `let` that gives x, its formula read.
pub(crate) fn take_shallow(
    here: Setting,
    x: NameRef,
    f: Letting,
    ops: &mut Ops,
) -> Result<Step, Refusal>
    requires { (Shallow (text_of here) f) × (f.line ≡ here.number) }
    ensures { Took ops.new here.entry
        (let_in (name_in (text_of here.entry) x) (read_formula (field_of (text_of here.entry) f)))
        result
        × (length ops.new ≡ length ops.old) }
{
    let k = here.held.known;
    let unknown = write_let(here, f, ops);
    let set = here.set(known::block_names(here.held));
    let given = set.is_given(x);
    let many = MOST_STATEMENTS < k.origin + k.masked + f.count;
    first_fault(here.stands, given, unknown, many, false)?;
    let next = known::with_statements(here.held, 0, f.count);
    Ok(Step {
        held: Limited { known: next },
        put: Put::Let(x, f),
    })
}

// Looks up the formula of a `let` and writes its operations; an operand alone counts as a `set`.
// Whether it reads what is not given.
pub(crate) fn write_let(here: Setting, f: Letting, out: &mut Ops) -> bool
    requires { (f.at + f.len ≤ length (text_of here))
        × LetRoom (read_formula (field_of (text_of here) f)) }
    ensures { LetWritten
        (block_names (text_of here.entry) (names_above here.entry) here.entry.held.known)
        (map_names (text_of here.entry) (names_above here.entry) here.entry.held.known) out.old
        out.new result
        (read_formula (field_of (text_of here.entry) f)) }
{
    let names = known::block_names(here.held);
    let maps = Names {
        from: 0,
        count: here.held.known.mapped,
    };
    let w = Lookup {
        set: here.set(names),
        maps,
        field: split::part(here.line.text, f.at, f.len),
        from: f.at,
        base: names.count,
    };
    let r = compile::compile(w, 0, 0, out);
    if r.done == 0 {
        let operand = r.operand;
        out[0] = Op::Set(operand);
        return r.unknown;
    }
    r.unknown
}
