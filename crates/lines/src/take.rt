// One record: its refusal, or what is known behind it, but for the stage.
ghost use Rattle.std.specs.Prelude.{◌≡◌, length};
ghost use Rattle.grammar.specs.declared.record.Rec.TheVariants as rec;
ghost use Rattle.lines.specs.Taken.{Took, TookAny, record_at};

use crate::assign::take_statement;
use crate::declare::{take_input, take_map, take_shares};
use crate::letting::take_let;
use crate::limited::Limited;
use crate::setting::Setting;
use crate::step::{Put, Step, first_fault};
use grammar::line::NameRef;
use grammar::lists;
use grammar::record::Rec;
use lookup::compile::Ops;
use lookup::names::Names;
use lookup::outputs;
use rules::limits::{MASKED_FROM, ORIGIN_FROM};
use tokens::refusal::Refusal;

// A record of any word.
pub(crate) fn take_any(here: Setting, r: Rec, ops: &mut Ops) -> Result<Step, Refusal>
    ensures { Took ops.new here.entry (record_at here.entry r) result
        × (length ops.new ≡ length ops.old) }
{
    match r {
        Rec::Shares(count) => take_shares(here, count),
        Rec::Map(x, constant) => take_map(here, x, constant),
        Rec::Input(x) => take_input(here, x),
        Rec::Origin => take_mark(here),
        Rec::Assign(x, f) => take_statement(here, x, f),
        Rec::Let(x) => take_let(here, x, ops),
        Rec::Result(x) => take_result(here, x),
        Rec::Masked => take_mark(here),
        Rec::Output => take_output(here),
    }
}

// `origin` and `masked`, which add nothing.
pub(crate) fn take_mark(here: Setting) -> Result<Step, Refusal>
    ensures { TookAny here.entry (record_at here.entry rec.Origin) result
        × TookAny here.entry (record_at here.entry rec.Masked) result }
{
    first_fault(here.stands, false, false, false, false)?;
    Ok(Step {
        held: here.held,
        put: Put::Nothing,
    })
}

// `result`.
pub(crate) fn take_result(here: Setting, x: NameRef) -> Result<Step, Refusal>
    ensures { TookAny here.entry (record_at here.entry (rec.Result x)) result }
{
    let k = here.held.known;
    let set = here.set(Names {
        from: ORIGIN_FROM,
        count: k.wholes,
    });
    let found = set.find(x);
    first_fault(here.stands, false, found.is_none(), false, false)?;
    let mut next = k;
    // it is some: a name that is not given is refused above
    next.result = found.unwrap_or(k.wholes);
    Ok(Step {
        held: Limited { known: next },
        put: Put::Nothing,
    })
}

// `output`.
pub(crate) fn take_output(here: Setting) -> Result<Step, Refusal>
    ensures { TookAny here.entry (record_at here.entry rec.Output) result }
{
    let k = here.held.known;
    let read = lists::read_outputs(here.line).ok_or(Refusal::Form)?;
    let set = here.set(Names {
        from: MASKED_FROM,
        count: k.parts,
    });
    let repeats = outputs::is_repeated(here.line.text, read);
    let found = set.find_outputs(read);
    let other = read.count != k.shares;
    first_fault(here.stands, repeats, found.unknown, false, other)?;
    let places = found.places;
    let mut next = k;
    next.outputs = places;
    next.named = read.count;
    Ok(Step {
        held: Limited { known: next },
        put: Put::Nothing,
    })
}
