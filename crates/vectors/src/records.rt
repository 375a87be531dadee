// The records of a text, as they are handed out one after another.
use crate::show::{end_line, print_number, print_small, print_word};
use grammar::line::Line;
use reader::cursor::Cursor;
use reader::handed::{behind, hand_out};
use std::io::Write;
use tokens::refusal::Refusal;

// More records than each of the texts has.
const ENOUGH: usize = 40;

// Prints what is handed out at the first place of a text, then behind it, and so on, to its end and
// on.
pub(crate) fn print_records(output: &mut impl Write, text: &[u8]) {
    let mut at = 0;
    let mut line = 0;
    for _ in 0..ENOUGH {
        print_at(output, text, at, line);
        let place = behind(text, at, line);
        at = place.at;
        line = place.line;
    }
}

// Prints what is handed out at a place.
fn print_at(output: &mut impl Write, text: &[u8], at: usize, line: usize) {
    let Some(handed) = hand_out(text, at, line) else {
        print_word(output, b"end\n");
        return;
    };
    match handed.record {
        Ok((l, _)) => print_record(output, l, handed.behind),
        Err(e) => print_refused(output, e, handed.behind),
    }
}

// Prints the number of a record's line, and where the line stands.
fn print_record(output: &mut impl Write, l: Line, c: Cursor) {
    print_word(output, b"record");
    print_number(output, c.line);
    print_number(output, l.from);
    print_number(output, l.len);
    end_line(output);
}

// Prints the number of a refused line, and its refusal's.
fn print_refused(output: &mut impl Write, e: Refusal, c: Cursor) {
    print_word(output, b"refused");
    print_number(output, c.line);
    print_small(output, e.number());
    end_line(output);
}
