// What a statement may read, and what it finds there for its operands.
ghost use Rattle.std.specs.Prelude.{◌*◌, ◌<◌, ◌≤◌};
ghost use Rattle.rules.specs.declared.types.Operand.TheVariants.{Place};
ghost use Rattle.values.specs.Source.{Narrow, Located};
ghost use Rattle.values.specs.Raw.{most_standing, Inside, OperandSized};
ghost use Rattle.values.specs.Found.{FoundFor};

use crate::found::Found;
use crate::shelf::Shelf;
use crate::source::{Scope, Source, size_of};
use rules::types::{Op, Operand};

// What a statement may read, and where it stands: the scope lies within the directory.
#[derive(Clone, Copy)]
pub struct View {
    pub scope: Scope,
    pub shelf: Shelf,
    ghost narrow: { Narrow scope shelf },
}

impl View {
    // The value at a place; past the last it is 0.
    pub fn place(self, i: usize) -> Source
        ensures { Located self.scope self.shelf (Place i) result }
    {
        let s = self.scope;
        let d = self.shelf;
        if i < s.begins {
            return Source::Variables(i * s.width, s.width);
        }
        let j = i - s.begins;
        if d.count - s.base <= j {
            return Source::Constant(0);
        }
        let slot = d.slots[s.base + j];
        Source::Stored(usize::from(slot.start), usize::from(slot.size))
    }

    // The value of an operand.
    fn locate(self, a: Operand) -> Source
        ensures { Located self.scope self.shelf a result }
    {
        match a {
            Operand::Place(i) => self.place(i),
            Operand::Byte(c) => Source::Constant(c),
        }
    }

    // How many terms an operand has.
    pub fn operand_size(self, a: Operand) -> usize
        requires { self.shelf.top ≤ most_standing }
        ensures { OperandSized self.scope self.shelf a result }
    {
        size_of(self.locate(a))
    }

    // Finds the operands of a statement; a rand copies the variable that it draws.
    pub fn find(self, op: Op) -> Found
        requires { Inside self.scope.drawn op }
        ensures { FoundFor self.scope self.shelf op result }
    {
        match op {
            Op::Set(a) => Found::Copy(self.locate(a)),
            Op::Xor(a, b) => Found::Sum(self.locate(a), self.locate(b)),
            Op::Mul(a, b) => Found::Product(self.locate(a), self.locate(b)),
            Op::App(f, a) => Found::Image(f, self.locate(a)),
            Op::Rand(v) => Found::Copy(Source::Variables(v, 1)),
        }
    }
}
