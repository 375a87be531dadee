// A term inserted among sorted terms: the one primitive of sum, product and application.
// A buffer and the number of its terms stay two parameters: it is lent again with other counts.
ghost use Rattle.buffer.specs.Insert.{PlaceAsked, Placed, InsertAsked, InsertedAny};

use crate::term::{compare_powers, move_down, move_up, write_at};

// The term t inserted among k sorted terms: a term with its powers is joined to it by XOR, and a
// coefficient of zero goes; answers how many there are now.
pub fn insert_term(b: &mut [u8], k: usize, t: &[u8]) -> usize
    requires { InsertAsked b.old k t.now }
    ensures { InsertedAny b.old b.new k t.now result }
{
    let w = t.len();
    let i = find_place(b, k, t);
    let at = i * w;
    let end = k * w;
    if i < k && compare_powers(&t[1..], &b[at + 1..at + w]).is_eq() {
        let c = t[0] ^ b[at];
        if c == 0 {
            move_down(b, at + w, end, w);
            return k - 1;
        }
        b[at] = c;
        return k;
    }
    if t[0] == 0 {
        return k;
    }
    move_up(b, at, end, w);
    write_at(b, at, t);
    k + 1
}

// How many of k sorted terms come before t, by halving.
fn find_place(b: &[u8], k: usize, t: &[u8]) -> usize
    requires { PlaceAsked b.now k t.now }
    ensures { Placed b.now k t.now result }
{
    let w = t.len();
    let mut low = 0;
    let mut high = k;
    // The terms below low come before t, the term at high does not.
    // `partition_point` of std halves over elements, and a term is w of them.
    while low < high {
        let middle = low + (high - low) / 2;
        let at = middle * w;
        if compare_powers(&t[1..], &b[at + 1..at + w]).is_gt() {
            low = middle + 1;
        } else {
            high = middle;
        }
    }
    low
}
