// The sum of two polynomials: the terms of the one inserted among those of the other.
ghost use Rattle.buffer.specs.Insert.{AddAsked, AddedAny};

use crate::insert::insert_term;

// The k terms of src, w bytes each, inserted among the r sorted terms of b, the last first; answers
// how many there are now.
pub fn add_terms(b: &mut [u8], r: usize, src: &[u8], k: usize, w: usize) -> usize
    requires { AddAsked b.old r src.now k w }
    ensures { AddedAny b.old b.new r src.now w k result }
{
    let mut n = r;
    // the terms of src behind term j are inserted
    for j in (0..k).rev() {
        n = insert_term(b, n, &src[j * w..(j + 1) * w]);
    }
    n
}
