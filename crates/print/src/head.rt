// A report's line up to its listed bytes.
ghost use Rattle.std.specs.Prelude.{◌≡◌, ◌≤◌, length};
ghost use Rattle.verdict.specs.Print.{word};
ghost use Rattle.print.specs.Line.{head_of};

use arrayvec::ArrayString;
use itoa::Buffer;
use verdict::report::{Report, Verdict};

// A verdict's word. A function and no Display, which would stand in crate verdict and be written by
// `write!`, whose bytes are promised only where it answers Ok.
#[tactic(auto, unfolding(verdict::specs::Print::word, tokens::specs::Ascii::ascii))]
fn word(verdict: Verdict) -> &'static str
    ensures value { result.now ≡ word verdict }
    ensures upper_bound { length result.now ≤ 7 }
{
    match verdict {
        Verdict::Equal => "equal",
        Verdict::Differs => "differs",
        Verdict::Unknown => "unknown",
        Verdict::Refused => "refused",
        Verdict::Found => "found",
    }
}

// The verdict's word and the five numbers, each behind a tab: at most 7 + 5 * 21 bytes.
pub fn head(report: Report) -> ArrayString<112>
    ensures { result.bytes ≡ head_of report }
{
    let mut head = ArrayString::new();
    head.push_str(word(report.verdict));
    let refusal = usize::from(report.refusal);
    let numbers = [
        refusal,
        report.line,
        report.terms,
        report.tried,
        report.idle,
    ];
    for n in numbers {
        head.push('\t');
        head.push_str(Buffer::new().format(n));
    }
    head
}
