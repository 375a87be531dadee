// What a record reads and gives, looked up in its set.
ghost use Rattle.std.specs.Prelude.{◌≡◌, ℕ, List, map};
ghost use Rattle.grammar.specs.Line.{name_in};
ghost use Rattle.lookup.specs.Names.{names_in};
ghost use Rattle.lookup.specs.Found.{GivenIs, NameIs, TermIs, PairIs, FormIs, FormReadIs};
ghost use Rattle.lookup.specs.Found.{joined, operated};

use crate::names::{Names, Set};
use crate::table;
use crate::table::Table;
use grammar::formula::Operation;
use grammar::line::{NameRef, TermRef};
use grammar::record::{Binary, FormRead};
use rules::types::{Op, Operand};

// An operand by its value's place, and whether its name is not given: the clause of `find_read`
// says the operand also where it is not, so the flag stands beside it.
#[derive(Clone, Copy)]
pub struct TermFound {
    pub unknown: bool,
    pub operand: Operand,
}

// What a statement computes by places, the variables that it draws, and whether it reads what is
// not given: the clause of `find_read` says the operation also where it does.
#[derive(Clone, Copy)]
pub struct FormFound {
    pub unknown: bool,
    pub op: Op,
    pub drawn: usize,
}

impl Names {
    // The entries of the set, in its table.
    pub(crate) fn entries(self, t: &Table) -> &[NameRef]
        ensures { (s : List ℕ) → map (name_in s) result.now ≡ names_in s t.now self }
    {
        &t[self.from..self.from + self.count]
    }
}

impl<'a> Set<'a> {
    // The name is given in the set.
    pub fn is_given(self, n: NameRef) -> bool
        ensures { GivenIs self.entry n result }
    {
        self.find(n).is_some()
    }

    // The place of a name in the set, where it is given there.
    pub fn find(self, n: NameRef) -> Option<usize>
        ensures { NameIs self.entry n result }
    {
        table::place(self.text, self.names.entries(self.table), n)
    }

    // Looks up an operand.
    pub(crate) fn find_term(self, a: TermRef) -> TermFound
        ensures { TermIs self.entry a result }
    {
        match a {
            TermRef::Name(n) => {
                let place = self.find(n);
                TermFound {
                    unknown: place.is_none(),
                    operand: Operand::Place(place.unwrap_or(self.names.count)),
                }
            }
            TermRef::Byte(v) => TermFound {
                unknown: false,
                operand: Operand::Byte(v),
            },
        }
    }

    // Looks up what a statement reads, its maps in a set of their own, v the next variable; none
    // where a part of it was not read.
    pub fn find_form(self, maps: Names, v: usize, f: Option<FormRead>) -> Option<FormFound>
        ensures { FormIs self.entry maps v f result }
    {
        Some(self.find_read(maps, v, f?))
    }

    // The same of a form that was read.
    pub(crate) fn find_read(self, maps: Names, v: usize, f: FormRead) -> FormFound
        ensures { FormReadIs self.entry maps v f result }
    {
        let others = Set {
            text: self.text,
            table: self.table,
            names: maps,
        };
        match f {
            FormRead::Set(a) => {
                let x = self.find_term(a);
                FormFound {
                    unknown: x.unknown,
                    op: Op::Set(x.operand),
                    drawn: 0,
                }
            }
            FormRead::Two(g, a, b) => find_pair(self, self, Operation::Two(g), a, b),
            FormRead::App(g, a) => find_pair(others, self, Operation::Image, TermRef::Name(g), a),
            FormRead::Rand => FormFound {
                unknown: false,
                op: Op::Rand(v),
                drawn: 1,
            },
        }
    }
}

// Looks up an operation on two operands, the first in a set of its own.
#[tactic(auto, unfolding(crate::specs::Found::pair_found))]
pub(crate) fn find_pair(first: Set, set: Set, o: Operation, a: TermRef, b: TermRef) -> FormFound
    ensures { PairIs first.entry set.entry o a b result }
{
    let x = first.find_term(a);
    let y = set.find_term(b);
    FormFound {
        unknown: x.unknown | y.unknown,
        op: operate(o, x.operand, y.operand),
        drawn: 0,
    }
}

// An operation on two values, or on a map and a value; what cannot be is a `set`, as the definition
// `operated` has it.
pub(crate) fn operate(o: Operation, x: Operand, y: Operand) -> Op
    ensures { result ≡ operated o x y }
{
    match o {
        Operation::Two(b) => join(b, x, y),
        Operation::Image => match x {
            Operand::Place(p) => Op::App(p, y),
            Operand::Byte(b) => Op::Set(y),
        },
        Operation::Unknown => Op::Set(y),
        Operation::Operand => Op::Set(y),
    }
}

// The operation on two operands, by places.
pub(crate) fn join(f: Binary, left: Operand, right: Operand) -> Op
    ensures { result ≡ joined f left right }
{
    match f {
        Binary::Xor => Op::Xor(left, right),
        Binary::Mul => Op::Mul(left, right),
    }
}
