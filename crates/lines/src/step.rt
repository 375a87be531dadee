// What one record leads to: its first fault, or what is known behind it and what is to be stored.
ghost use Rattle.std.specs.Prelude.{◌≡◌};
ghost use Rattle.lines.specs.Taken.{fault_number, first_fault};

use crate::limited::Limited;
use grammar::line::NameRef;
use rules::types::{AffineMap, Statement};
use tokens::refusal::Refusal;

// A formula: where its field stands, how many statements it counts as, and its line.
#[derive(Clone, Copy)]
pub struct Letting {
    pub at: usize,
    pub len: usize,
    pub count: usize,
    pub line: usize,
}

// What a record gives: nothing, a map with its name, an input's name, a statement with its name, or
// a formula with its name. Nothing is a case like the others: no one asks if there is anything.
#[derive(Clone, Copy)]
pub enum Put {
    Nothing,
    Map(NameRef, AffineMap),
    Input(NameRef),
    Stated(NameRef, Statement),
    Let(NameRef, Letting),
}

// What is known behind a record, and what is to be stored.
#[derive(Clone, Copy)]
pub struct Step {
    pub held: Limited,
    pub put: Put,
}

// The first fault of a record, where it has one; the five tests are those of its definition.
#[tactic(auto, unfolding(crate::specs::Taken::first_fault, rules::specs::Read::first_of))]
pub(crate) fn first_fault(
    stands: bool,
    repeats: bool,
    unknown: bool,
    exceeds: bool,
    miscounts: bool,
) -> Result<(), Refusal>
    ensures { fault_number result ≡ first_fault stands repeats unknown exceeds miscounts }
{
    if !stands {
        return Err(Refusal::Order);
    }
    if repeats {
        return Err(Refusal::NameTaken);
    }
    if unknown {
        return Err(Refusal::UnknownName);
    }
    if exceeds {
        return Err(Refusal::TooMany);
    }
    if miscounts {
        return Err(Refusal::OutputCount);
    }
    Ok(())
}
