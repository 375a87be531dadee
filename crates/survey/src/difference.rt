// The difference at the output line: its raw size, and its terms. The parameters stay apart: the
// buffers are lent again, to be read and to be written.
ghost use Rattle.std.specs.Prelude.{◌++◌, ◌+◌, ◌≤◌, length};
ghost use Rattle.field.specs.Laws.{gf};
ghost use Rattle.poly.specs.Poly.{normal};
ghost use Rattle.values.specs.Shelf.{Laid};
ghost use Rattle.values.specs.Source.{source_of, source_size};
ghost use Rattle.values.specs.Load.{LayAsked, LoadAsked};
ghost use Rattle.survey.specs.Difference.{output_terms, OutputsAsked, OutputsLaid};
ghost use Rattle.survey.specs.Difference.{OutputsSized};
ghost use Rattle.values.specs.Raw.{most_standing};

use buffer::add::add_terms;
use rules::types::Operand;
use values::load::load;
use values::source::{Source, size_of};
use values::view::View;

// Lays the values at these places behind the first `from` terms of `right`; answers how many terms
// there are now.
pub(crate) fn load_outputs(
    left: &[u8],
    outputs: &[usize],
    v: View,
    right: &mut [u8],
    from: usize,
    w: usize,
) -> usize
    requires { OutputsAsked left.now outputs.now v.scope v.shelf right.old from w }
    ensures { OutputsLaid left.now outputs.now v.scope v.shelf
        right.old right.new from w result }
{
    // the outputs before this one are laid, behind which term k is the next
    let mut k = from;
    for p in outputs {
        let source = v.place(*p);
        load(left, source, right, k, w);
        k += size_of(source);
    }
    k
}

// Forms the sum of the result `a` and of all outputs from term `top` of `left` on; answers how many
// terms it has.
pub fn form_difference(
    m: u8,
    left: &mut [u8],
    top: usize,
    a: Source,
    outputs: &[usize],
    v: View,
    right: &mut [u8],
    w: usize,
) -> usize
    requires { LoadAsked left.old a right.old 0 w
        × OutputsAsked left.old outputs.now v.scope v.shelf right.old (source_size a) w
        × LayAsked left.old top
        (source_size a + length (output_terms w left.old v.shelf v.scope outputs.now)) w }
    ensures { Laid w left.old left.new top result
        (normal (gf m) (source_of w left.old a
        ++ output_terms w left.old v.shelf v.scope outputs.now)) }
{
    load(left, a, right, 0, w);
    let i = size_of(a);
    let k = load_outputs(left, outputs, v, right, i, w);
    let at = top * w;
    let end = left.len();
    add_terms(&mut left[at..end], 0, right, k, w)
}

// How many terms the values at these places have together.
pub fn outputs_size(outputs: &[usize], v: View) -> usize
    requires { (v.shelf.top ≤ most_standing) × (length outputs.now ≤ 8) }
    ensures { OutputsSized outputs.now v.scope v.shelf result }
{
    // the places before this one are counted
    let mut k = 0;
    for p in outputs {
        k += v.operand_size(Operand::Place(*p));
    }
    k
}
