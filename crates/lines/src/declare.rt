// The records before the blocks: `shares`, `map` and `input`.
ghost use Rattle.std.specs.Prelude.{◌≡◌};
ghost use Rattle.grammar.specs.declared.record.Rec.TheVariants as rec;
ghost use Rattle.lines.specs.Added.{InputFits, input_added};
ghost use Rattle.lines.specs.Taken.{TookAny, record_at};

use crate::limited::Limited;
use crate::setting::Setting;
use crate::step::{Put, Step, first_fault};
use grammar::line::NameRef;
use grammar::lists;
use lookup::names::Names;
use rules::limits::{MOST_INPUTS, MOST_MAPS, MOST_VARIABLES, ORIGIN_FROM};
use rules::types::AffineMap;
use tokens::refusal::Refusal;

// `shares`.
pub(crate) fn take_shares(here: Setting, count: u8) -> Result<Step, Refusal>
    ensures { TookAny here.entry (record_at here.entry (rec.Shares count)) result }
{
    first_fault(here.stands, false, false, false, false)?;
    let mut next = here.held.known;
    next.shares = count as usize;
    Ok(Step {
        held: Limited { known: next },
        put: Put::Nothing,
    })
}

// `map`.
pub(crate) fn take_map(here: Setting, x: NameRef, constant: u8) -> Result<Step, Refusal>
    ensures { TookAny here.entry
        (record_at here.entry (rec.Map x constant)) result }
{
    let k = here.held.known;
    let columns = lists::read_columns(here.line).ok_or(Refusal::Form)?;
    let set = here.set(Names {
        from: 0,
        count: k.mapped,
    });
    let given = set.is_given(x);
    let many = MOST_MAPS < k.mapped + 1;
    first_fault(here.stands, given, false, many, false)?;
    let mut next = k;
    next.mapped = k.mapped + 1;
    Ok(Step {
        held: Limited { known: next },
        put: Put::Map(x, AffineMap { constant, columns }),
    })
}

// `input`.
pub(crate) fn take_input(here: Setting, x: NameRef) -> Result<Step, Refusal>
    ensures { TookAny here.entry (record_at here.entry (rec.Input x)) result }
{
    let k = here.held.known;
    let set = here.set(Names {
        from: ORIGIN_FROM,
        count: k.wholes,
    });
    let given = set.is_given(x);
    let fifth = MOST_INPUTS < k.inputs + 1;
    let over = MOST_VARIABLES < k.variables + k.shares;
    first_fault(here.stands, given, false, fifth | over, false)?;
    Ok(Step {
        held: with_input(here.held),
        put: Put::Input(x),
    })
}

// One input more, with its shares.
pub(crate) fn with_input(h: Limited) -> Limited
    requires { InputFits h.known }
    ensures { result.known ≡ input_added h.known }
{
    let k = h.known;
    let mut known = k;
    known.inputs = k.inputs + 1;
    known.variables = k.variables + k.shares;
    known.wholes = k.wholes + 1;
    known.parts = k.parts + k.shares;
    Limited { known }
}
