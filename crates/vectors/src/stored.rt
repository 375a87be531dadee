// A stored case as it is read: its first line, whose fields are parted by tabs, and its text.
use arrayvec::ArrayVec;
use std::io;
use std::io::Read;
use verdict::report::Trials;

// The longest first line that is read.
const LINE: usize = 64;

// One byte more than a text may have: so much of it is read.
const TEXT: usize = 16385;

// A case: the fields of its first line are a name, the number of bytes of the text, the trials that
// may be made and the number that they start from.
#[derive(Drop)]
pub(crate) struct Stored {
    line: ArrayVec<u8, { LINE }>,
    text: ArrayVec<u8, { TEXT }>,
}

// A name, a text and the trials to judge it with.
#[derive(Clone, Copy)]
pub(crate) struct Case<'a> {
    pub(crate) name: &'a [u8],
    pub(crate) text: &'a [u8],
    pub(crate) trials: Trials,
}

impl Stored {
    // Reads the next case of the input; none where its first line is empty.
    pub(crate) fn read(input: &mut impl Read) -> Option<Stored> {
        let line = read_line(input);
        if line.is_empty() {
            return None;
        }
        let text = read_text(input, number(line.as_slice(), 1));
        Some(Stored { line, text })
    }

    // What the case says.
    pub(crate) fn case(&self) -> Case<'_> {
        let line = self.line.as_slice();
        Case {
            name: field(line, 0),
            text: self.text.as_slice(),
            trials: Trials {
                count: number(line, 2),
                start: number(line, 3),
            },
        }
    }
}

// Reads a line up to its line feed, or what of it has room. A failed read ends it.
fn read_line(input: &mut impl Read) -> ArrayVec<u8, { LINE }> {
    let mut line = ArrayVec::new();
    let bytes = input.by_ref().bytes().map_while(|byte| byte.ok());
    let _ = line.extend(bytes.take_while(|byte| *byte != b'\n').take(LINE));
    line
}

// Reads a text of so many bytes, or what of it has room, and the line feed behind it. A failed read
// ends it.
fn read_text(input: &mut impl Read, count: u32) -> ArrayVec<u8, { TEXT }> {
    let mut text = ArrayVec::new();
    let most = u64::from(count).min(TEXT as u64);
    let _ = io::copy(&mut input.by_ref().take(most), &mut text);
    let _ = input.by_ref().bytes().next();
    text
}

// Field k of a line, which is empty where there is none.
fn field(line: &[u8], k: usize) -> &[u8] {
    line.split(|byte| *byte == b'\t').nth(k).unwrap_or(b"")
}

// The number that field k of a line gives in decimal; of a larger one, its low 32 bits.
fn number(line: &[u8], k: usize) -> u32 {
    field(line, k).iter().fold(0, |n: u32, digit| {
        n.wrapping_mul(10).wrapping_add(u32::from(*digit % 16))
    })
}
