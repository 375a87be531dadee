// The S-box of FIPS 197 and the coefficients of two maps, by the functions of crate field; and the
// S-box by run of a text.
use crate::show::{end_line, print_bytes, print_rows, print_word};
use std::io::Write;
use verdict::run::run;

// The low byte of the modulus.
const MODULUS: u8 = 0x1b;

// The constant of the map of FIPS 197.
const FIPS_CONSTANT: u8 = 0x63;

// The columns of the map of FIPS 197.
const FIPS_COLUMNS: [u8; 8] = [0x1f, 0x3e, 0x7c, 0xf8, 0xf1, 0xe3, 0xc7, 0x8f];

// The columns of squaring.
const SQUARE_COLUMNS: [u8; 8] = [0x01, 0x04, 0x10, 0x40, 0x1b, 0x6c, 0xab, 0x9a];

// The S-box at x: its 254th power, then the map.
fn sbox(x: u8) -> u8 {
    field::apply(FIPS_CONSTANT, FIPS_COLUMNS, field::power(MODULUS, x, 254))
}

// Prints the S-box, one row for each high digit.
pub(crate) fn print_sbox(output: &mut impl Write) {
    print_rows(output, b"sbox_", |x| (sbox(x), sbox(x)));
}

// Prints the S-box that a text computes: the original's result at each byte where the masked form
// gives the same byte, else both.
pub(crate) fn print_run_sbox(output: &mut impl Write, text: &[u8]) {
    print_rows(output, b"run_", |x| {
        let answer = run(text, &[x]);
        (answer.original, answer.joined)
    });
}

// Prints the eight coefficients of the map with these columns.
fn print_list(output: &mut impl Write, columns: [u8; 8]) {
    print_bytes(output, field::coefficients(MODULUS, columns));
    end_line(output);
}

// Prints the coefficients of the two maps of the rules.
pub(crate) fn print_coefficients(output: &mut impl Write) {
    print_word(output, b"fips_map");
    print_list(output, FIPS_COLUMNS);
    print_word(output, b"square_map");
    print_list(output, SQUARE_COLUMNS);
}
