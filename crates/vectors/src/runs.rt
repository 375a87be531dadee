// Each stored text run on bytes, one for each of its variables, and coefficients of lists of bytes.
ghost use Rattle.std.specs.Prelude.{◌≤◌, length};

use crate::show::{end_line, print_byte, print_bytes, print_number, print_small, print_word};
use crate::stored::Case;
use std::io::Write;
use verdict::coefficients::coefficients;
use verdict::run::run;

// The bytes that the variables get, in order.
const BYTES: [u8; 16] = [
    0x53, 0xca, 0x01, 0xff, 0x80, 0x1b, 0x02, 0x63, 0xa5, 0x5a, 0x0e, 0xe5, 0x7d, 0x9c, 0x36, 0xc9,
];

// The map of FIPS 197, its constant first, and a byte more.
const MAP: [u8; 10] = [0x63, 0x1f, 0x3e, 0x7c, 0xf8, 0xf1, 0xe3, 0xc7, 0x8f, 0x00];

// Prints a text's name and what run answers: number, line, the original's result, the joined one.
pub(crate) fn print_run(output: &mut impl Write, case: Case<'_>) {
    let answer = run(case.text, taken(case.text));
    print_word(output, case.name);
    print_word(output, b"_run");
    print_small(output, answer.refusal);
    print_number(output, answer.line);
    print_byte(output, answer.original);
    print_byte(output, answer.joined);
    end_line(output);
}

// The first of the bytes, as many as are not refused by 11; all where each number of them is.
fn taken(text: &[u8]) -> &'static [u8]
    ensures { length result.now ≤ 16 }
{
    let fits = |n: &usize| run(text, &BYTES[..*n]).refusal != 11;
    &BYTES[..(0..16).find(fits).unwrap_or(16)]
}

// Prints the coefficients of the map as eight, nine and ten bytes.
pub(crate) fn print_maps(output: &mut impl Write) {
    print_map(output, b"eight_bytes", &MAP[..8]);
    print_map(output, b"nine_bytes", &MAP[..9]);
    print_map(output, b"ten_bytes", &MAP);
}

// Prints a name and what coefficients answers: number, line, and the eight bytes.
fn print_map(output: &mut impl Write, name: &[u8], list: &[u8]) {
    let answer = coefficients(list);
    print_word(output, name);
    print_small(output, answer.refusal);
    print_number(output, answer.line);
    print_bytes(output, answer.coefficients);
    end_line(output);
}
