// The lent buffers: at their least lengths, one below and one above, and what is left in them.
use crate::show::{end_line, print_number, print_small, print_word};
use crate::stored::Case;
use judge::judge_with;
use std::io::Write;
use verdict::report::Trials;
use verdict::trials::default_trials;

// The lengths of the lent buffers: at most 65281, 65281 and 17 bytes are lent.
#[derive(Clone, Copy)]
struct Lengths {
    left: usize,
    right: usize,
    list: usize,
}

// The lengths at which judge takes its buffers.
const LEAST: Lengths = Lengths {
    left: 65280,
    right: 65280,
    list: 16,
};

// More trials than may be asked for.
const TOO_MANY: Trials = Trials {
    count: 65536,
    start: 1,
};

// What every lent byte is before.
const BEFORE: u8 = 0xff;

// Prints the answers for a text, with each buffer at its least length, and one below; and so with
// too many trials.
pub(crate) fn print_lists(output: &mut impl Write, text: &[u8]) {
    let trials = default_trials();
    let least = |name| Case { name, text, trials };
    let many = |name| Case {
        name,
        text,
        trials: TOO_MANY,
    };
    let short_list = Lengths { list: 15, ..LEAST };
    let short_left = Lengths {
        left: 65279,
        ..LEAST
    };
    let short_right = Lengths {
        right: 65279,
        ..LEAST
    };
    print_judged(output, least(b"least"), LEAST);
    print_judged(output, least(b"short_list"), short_list);
    print_judged(output, least(b"short_left"), short_left);
    print_judged(output, least(b"short_right"), short_right);
    print_judged(output, many(b"many"), LEAST);
    print_judged(output, many(b"many_short"), short_list);
}

// Prints what a text leaves of each buffer, one byte longer than asked.
pub(crate) fn print_kept(output: &mut impl Write, case: Case<'_>) {
    let long = Lengths {
        left: 65281,
        right: 65281,
        list: 17,
    };
    print_judged(output, case, long);
}

// Judges a text in buffers of these lengths and prints the refusal's number, and how many bytes of
// each buffer are as they were.
fn print_judged(output: &mut impl Write, case: Case<'_>, lengths: Lengths) {
    let mut left = [BEFORE; 65281];
    let mut right = [BEFORE; 65281];
    let mut list = [BEFORE; 17];
    let left = &mut left[..lengths.left.min(65281)];
    let right = &mut right[..lengths.right.min(65281)];
    let list = &mut list[..lengths.list.min(17)];
    let report = judge_with(case.text, case.trials, left, right, list);
    print_word(output, case.name);
    print_word(output, b"_kept");
    print_small(output, report.refusal);
    print_number(output, unchanged(left));
    print_number(output, unchanged(right));
    print_number(output, unchanged(list));
    end_line(output);
}

// How many bytes of a buffer are as they were. A chain with `filter` and `count` takes longer.
fn unchanged(buffer: &[u8]) -> usize {
    let mut n = 0;
    // so many of the bytes before this one are as they were
    for byte in buffer {
        if *byte == BEFORE {
            n += 1;
        }
    }
    n
}
