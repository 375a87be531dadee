// A formula looked up: its operations in a lent array, and its value.
ghost use Rattle.std.specs.Prelude.{◌≡◌, ◌≤◌, length};
ghost use Rattle.lookup.specs.Compiled.{Looks, Compilable};
ghost use Rattle.lookup.specs.Compiled.{compiled_of, CompilesAt, MapLookedAt};
ghost use Rattle.lookup.specs.Compiled.{TermLookedAt};

use crate::names::{Names, Set};
use crate::scope;
use grammar::formula::Operation;
use grammar::line::TermRef;
use grammar::{formula, line};
use rules::limits::MOST_STATEMENTS;
use rules::types::{Op, Operand};
use tokens::bytes;

// The operations of a formula, in the order of computing.
pub type Ops = [Op; MOST_STATEMENTS];

// The set of names that a formula reads, the maps in its table, the formula's field and where it
// stands in the text, and the place of its first operation's value.
#[derive(Clone, Copy)]
pub struct Lookup<'a> {
    pub set: Set<'a>,
    pub maps: Names,
    pub field: &'a [u8],
    pub from: usize,
    pub base: usize,
}

// A formula looked up: where it ends, its value, the operations written so far, and whether it
// reads what is not given: the clause of `compile` says the value also where it does.
#[derive(Clone, Copy)]
pub struct Compiled {
    pub end: usize,
    pub unknown: bool,
    pub operand: Operand,
    pub done: usize,
}

// Looks up the formula at place `at` of the field, and writes its operations.
pub fn compile<'a>(w: Lookup<'a>, at: usize, done: usize, out: &mut Ops) -> Compiled
    requires { Compilable w at done }
    ensures { CompilesAt out.old out.new w.entry at done result }
{
    let mark = bytes::find_mark(w.field, at);
    let o = formula::operation_at(w.field, at, mark);
    let first = match o {
        Operation::Two(b) => compile(w, mark + 1, done, out),
        Operation::Image => find_map(w, mark + 1, done).unwrap(),
        Operation::Unknown => unreachable!(),
        Operation::Operand => {
            return find_operand(w, at, mark, done).unwrap();
        }
    };
    let y = compile(w, first.end + 1, first.done, out);
    out[y.done] = scope::operate(o, first.operand, y.operand);
    let unknown = first.unknown | y.unknown;
    made(
        y.end + 1,
        unknown,
        Operand::Place(w.base + y.done),
        y.done + 1,
    )
}

// What was looked up.
pub(crate) fn made(end: usize, unknown: bool, operand: Operand, done: usize) -> Compiled
    ensures { result ≡ compiled_of end unknown operand done }
{
    Compiled {
        end,
        unknown,
        operand,
        done,
    }
}

// Looks up the map whose name stands at place `at` of the field, up to the first mark.
pub(crate) fn find_map<'a>(w: Lookup<'a>, at: usize, done: usize) -> Option<Compiled>
    requires { (Looks w) × (at ≤ length w.field.now) }
    ensures { MapLookedAt w.entry at done result }
{
    let mark = bytes::find_mark(w.field, at);
    let g = line::name_at(w.set.text, w.from + at, mark - at)?;
    let maps = Set {
        text: w.set.text,
        table: w.set.table,
        names: w.maps,
    };
    let x = maps.find_term(TermRef::Name(g));
    Some(made(mark, x.unknown, x.operand, done))
}

// Looks up the operand from place `at` of the field to the mark.
pub(crate) fn find_operand<'a>(
    w: Lookup<'a>,
    at: usize,
    mark: usize,
    done: usize,
) -> Option<Compiled>
    requires { (Looks w) × (at ≤ mark) × (mark ≤ length w.field.now) }
    ensures { TermLookedAt w.entry at mark done result }
{
    let a = line::term_at(w.set.text, w.from + at, mark - at)?;
    let x = w.set.find_term(a);
    Some(made(mark, x.unknown, x.operand, done))
}
