// Terms as bytes of a lent buffer: compared, moved and written.
ghost use Rattle.std.specs.Prelude.{◌≡◌, ◌+◌, ◌≤◌, length};
ghost use Rattle.poly.specs.Poly.{order};
ghost use Rattle.buffer.specs.Buffer.{answer};
ghost use Rattle.buffer.specs.Move.{MovedUp, MovedDown, Written};

use std::cmp::Ordering;

// Which of two lists of powers comes first, the last power compared first.
pub fn compare_powers(a: &[u8], b: &[u8]) -> Ordering
    requires { length a.now ≡ length b.now }
    ensures { result ≡ answer (order a.now b.now) }
{
    // The powers behind power k are the same. `cmp` of both lists turned round takes longer.
    for k in (0..a.len()).rev() {
        if a[k] != b[k] {
            return a[k].cmp(&b[k]);
        }
    }
    Ordering::Equal
}

// The bytes from..to moved up by `by`, the last one first. By hand, as in the two functions behind:
// with `copy_within` and `copy_from_slice` the archive for C would need `memmove` from outside.
pub fn move_up(b: &mut [u8], from: usize, to: usize, by: usize)
    requires { (from ≤ to) × (to + by ≤ length b.old) }
    ensures { MovedUp b.old b.new from to by }
{
    // the bytes behind byte j are moved
    for j in (from..to).rev() {
        b[j + by] = b[j];
    }
}

// The bytes from..to moved down by `by`, the first one first. No twin of `move_up`: each asks for
// another bound, and a place to move to in place of both would have to be bounded twice.
pub fn move_down(b: &mut [u8], from: usize, to: usize, by: usize)
    requires { (from ≤ to) × (by ≤ from) × (to ≤ length b.old) }
    ensures { MovedDown b.old b.new from to by }
{
    // the bytes before byte j are moved
    for j in from..to {
        b[j - by] = b[j];
    }
}

// The bytes of t written at byte `at`.
pub fn write_at(b: &mut [u8], at: usize, t: &[u8])
    requires { at + length t.now ≤ length b.old }
    ensures { Written b.old b.new at t.now }
{
    // the bytes of t before byte j are written
    for (j, byte) in t.iter().enumerate() {
        b[at + j] = *byte;
    }
}
