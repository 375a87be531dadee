// A line: its refusal, or what is known behind it and what is to be stored.
ghost use Rattle.std.specs.Prelude.{◌≡◌, length};
ghost use Rattle.lines.specs.Taken.{RecordLeads, LineLeads};

use crate::limited::Limited;
use crate::setting::Setting;
use crate::step::Step;
use crate::{order, take};
use grammar::line::TextLine;
use grammar::record;
use lookup::compile::Ops;
use lookup::table::Table;
use tokens::refusal::Refusal;
use tokens::word::Word;
use tokens::{bytes, word};

// Line n, which its line feed ends.
pub fn take_line(
    l: TextLine,
    t: &Table,
    h: Limited,
    n: usize,
    ops: &mut Ops,
) -> Result<Step, Refusal>
    ensures { LineLeads t.now ops.new h.known l.entry n result
        × (length ops.new ≡ length ops.old) }
{
    if bytes::all_allowed(l.bytes()) {
        let w = word::word_of(l.piece(0));
        return take_record(l, t, h, n, w, ops);
    }
    Err(Refusal::StrangeByte)
}

// The record of line n, its word known.
pub(crate) fn take_record(
    l: TextLine,
    t: &Table,
    h: Limited,
    n: usize,
    w: Word,
    ops: &mut Ops,
) -> Result<Step, Refusal>
    ensures { RecordLeads t.now ops.new h.known l.entry n w result
        × (length ops.new ≡ length ops.old) }
{
    let r = record::record(l, w).ok_or(Refusal::Form)?;
    let stands = order::may_stand(w, h.known.stage);
    let here = Setting {
        table: t,
        held: h,
        line: l,
        number: n,
        stands,
    };
    let step = take::take_any(here, r, ops)?;
    let mut known = step.held.known;
    known.stage = order::stage_after(w, known.stage);
    Ok(Step {
        held: Limited { known },
        put: step.put,
    })
}
