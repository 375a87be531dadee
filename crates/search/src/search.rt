// The first differing bytes: for each variable the smallest byte that leaves a term.
ghost use Rattle.search.specs.Search.{SearchAsked, Searched};

use crate::put::put;

// For each variable in order the smallest byte for which the k terms of b, w bytes each, still have
// a term when it is put in, written to bytes; the terms are used up. Answers how many bytes were
// tried.
pub fn search(m: u8, b: &mut [u8], k: usize, w: usize, bytes: &mut [u8]) -> usize
    requires { SearchAsked m b.old k w bytes.old }
    ensures { Searched m b.old b.new k w
        bytes.old bytes.new result }
{
    let mut left = k;
    let mut tried = 0;
    // the bytes below i are the first differing ones, and are put in
    for i in 0..w - 1 {
        let mut a: u8 = 0;
        // no byte below a leaves a term; the rules ask for a loop that yields the byte by break
        bytes[i] = loop {
            tried += 1;
            let r = put(m, b, left, w, i, a);
            if 0 < r {
                left = r;
                break a;
            }
            a += 1;
        };
    }
    tried
}
