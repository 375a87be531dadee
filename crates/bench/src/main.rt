// Reads a text from standard input, judges it and prints one line. A failed read prints none.
#![tactic(auto)]

use arrayvec::ArrayVec;
use std::io;
use std::io::{Read, Write};

// One byte more than a text may have, which judge then refuses: so much is read.
const MOST: usize = 16385;

// Judges what comes from standard input; a failed read or write is told on standard error.
fn main(rt: HostRuntime) {
    let mut text = ArrayVec::<u8, { MOST }>::new();
    if io::copy(&mut rt.stdin().take(MOST as u64), &mut text).is_err() {
        let _ = eprintln!(rt; "bench: standard input could not be read");
        return;
    }
    if print_answer(&mut rt.stdout(), text.as_slice()).is_err() {
        let _ = eprintln!(rt; "bench: the line could not be written");
    }
}

// Judges a text and writes its line.
fn print_answer(writer: &mut impl Write, text: &[u8]) -> io::Result<()> {
    let mut out = [0u8; 256];
    let n = print::answer(text, &mut out);
    writer.write_all(&out[..n])
}
