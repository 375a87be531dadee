// Names, bytes, numbers and line feeds on an output. A write that fails is passed over.
use std::io::Write;

// Writes some bytes as they are.
pub(crate) fn print_word(output: &mut impl Write, word: &[u8]) {
    let _ = output.write_all(word);
}

// Writes a tab and a byte's two hex digits.
pub(crate) fn print_byte(output: &mut impl Write, byte: u8) {
    let _ = write!(output, "\t{byte:02x}");
}

// Writes eight bytes, each as a tab and two hex digits.
pub(crate) fn print_bytes(output: &mut impl Write, list: [u8; 8]) {
    for byte in list {
        print_byte(output, byte);
    }
}

// Writes a tab and a number in decimal.
pub(crate) fn print_number(output: &mut impl Write, n: usize) {
    let _ = write!(output, "\t{n}");
}

// Writes a tab and a byte as a number in decimal.
pub(crate) fn print_small(output: &mut impl Write, byte: u8) {
    print_number(output, usize::from(byte));
}

// Ends a line.
pub(crate) fn end_line(output: &mut impl Write) {
    print_word(output, b"\n");
}

// Prints a table of a byte's value, a row for each high digit of the byte: behind a name and that
// digit, each value's first byte, and its second where that is another.
pub(crate) fn print_rows<F: Fn(u8) -> (u8, u8)>(output: &mut impl Write, name: &[u8], value: F)
    requires { F.IsAlwaysCallable value }
{
    for high in 0..16u8 {
        print_word(output, name);
        let _ = write!(output, "{high:x}");
        for low in 0..16u8 {
            let (first, second) = value(high * 16 + low);
            print_byte(output, first);
            if first != second {
                print_byte(output, second);
            }
        }
        end_line(output);
    }
}
