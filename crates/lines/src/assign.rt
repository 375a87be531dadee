// A statement.
ghost use Rattle.grammar.specs.declared.record.Rec.TheVariants as rec;
ghost use Rattle.lines.specs.Taken.{TookAny, record_at};

use crate::known;
use crate::limited::Limited;
use crate::setting::Setting;
use crate::step::{Put, Step, first_fault};
use grammar::line::NameRef;
use grammar::record::FormRead;
use lookup::names::Names;
use rules::types::Statement;
use tokens::refusal::Refusal;

// A statement.
pub(crate) fn take_statement(here: Setting, x: NameRef, f: FormRead) -> Result<Step, Refusal>
    ensures { TookAny here.entry (record_at here.entry (rec.Assign x f)) result }
{
    let k = here.held.known;
    let set = here.set(known::block_names(here.held));
    let maps = Names {
        from: 0,
        count: k.mapped,
    };
    // the form was read, so something is told of it
    let form = set.find_form(maps, k.variables, Some(f)).unwrap();
    let given = set.is_given(x);
    let many = known::is_crowded(here.held, form.drawn);
    first_fault(here.stands, given, form.unknown, many, false)?;
    let st = Statement {
        op: form.op,
        line: here.number,
    };
    let next = known::with_statements(here.held, form.drawn, 1);
    Ok(Step {
        held: Limited { known: next },
        put: Put::Stated(x, st),
    })
}
