// The stored texts, one case after another: a line with the name, the number of bytes, the trials
// that may be made and the number that they start from, parted by tabs; then these bytes and a line
// feed.
use crate::lists::{print_kept, print_lists};
use crate::records::print_records;
use crate::runs::print_run;
use crate::show::print_word;
use crate::stored::{Case, Stored};
use crate::tables::print_run_sbox;
use std::io::{Read, Write};

// More cases than are stored.
const ENOUGH: usize = 100000;

// How many cases, from the first on, are handed out record by record.
const HANDED: usize = 2;

// Reads one case after another and prints what comes of each.
pub(crate) fn print_cases(input: &mut impl Read, output: &mut impl Write) {
    for at in 0..ENOUGH {
        let Some(stored) = Stored::read(input) else {
            return;
        };
        let case = stored.case();
        print_first(output, at, case.text);
        print_case(output, case);
    }
}

// Prints what comes of the first texts alone: the S-box that the first computes, and its answers in
// buffers of their least lengths; the records of each.
fn print_first(output: &mut impl Write, at: usize, text: &[u8]) {
    if at == 0 {
        print_run_sbox(output, text);
        print_lists(output, text);
    }
    if at < HANDED {
        print_records(output, text);
    }
}

// Prints a case's name, a tab and the line of its text; then what run answers, and what judge
// leaves in its buffers.
fn print_case(output: &mut impl Write, case: Case<'_>) {
    print_word(output, case.name);
    print_word(output, b"\t");
    print_line(output, case);
    print_run(output, case);
    print_kept(output, case);
}

// Prints the line of a text.
fn print_line(output: &mut impl Write, case: Case<'_>) {
    let mut out = [0u8; 256];
    let n = print::answer_with(case.text, case.trials, &mut out);
    print_word(output, &out[..n]);
}
