// Trials where the verdict is unknown: each runs a routine on bytes from a number that runs on.
ghost use Rattle.std.specs.Prelude.{◌≡◌, ◌<◌, ◌≤◌, length};
ghost use Rattle.rules.specs.Limits.{most_variables};
ghost use Rattle.text.specs.Routine.{routine_of, Counted};
ghost use Rattle.verdict.specs.Judge.{default_trials};
ghost use Rattle.verdict.specs.Trials.{stepped, top_byte, agrees_on, try, TrialIs, found_of};

use crate::report::Trials;
use crate::run::{masked, original};
use rules::limits::MOST_VARIABLES;
use text::accepted::Accepted;
use text::routine::Routine;

// How many trials are made where nothing is said.
const DEFAULT_COUNT: u32 = 256;

// The number that they start from where nothing is said.
const DEFAULT_START: u32 = 1;

// What is added for each byte.
const STEP: u32 = 0x9e3779b9;

// The bytes of one trial, as many as the routine has variables, and the number after them.
#[derive(Clone, Copy)]
pub struct Trial {
    pub bytes: [u8; MOST_VARIABLES],
    pub next: u32,
}

// The trial that differs: how many were made, and the bytes of the last.
#[derive(Clone, Copy)]
pub struct Differing {
    pub made: usize,
    pub bytes: [u8; MOST_VARIABLES],
}

// What is asked for where nothing is said.
pub fn default_trials() -> Trials
    ensures { result ≡ default_trials }
{
    Trials {
        count: DEFAULT_COUNT,
        start: DEFAULT_START,
    }
}

// The next number.
fn stepped(n: u32) -> u32
    ensures { result ≡ stepped n }
{
    std::num::wrapping_add_u32(n, STEP)
}

// The top eight bits of a number.
fn top_byte(n: u32) -> u8
    ensures { result ≡ top_byte n }
{
    (n / 16777216) as u8
}

// The first v bytes from a number, and the number after them.
fn draw(number: u32, v: usize) -> Trial
    requires { v ≤ most_variables }
    ensures { TrialIs number v result }
{
    let mut bytes = [0u8; MOST_VARIABLES];
    let mut n = number;
    // n is the number after the bytes before this one
    for byte in &mut bytes[..v] {
        n = stepped(n);
        *byte = top_byte(n);
    }
    Trial { bytes, next: n }
}

// Whether run gives one byte twice. It is public and promises so for every routine whose counts are
// within their limits, so it asks for that, and not for the routine of an accepted text.
pub fn agrees_on(r: Routine, xs: &[u8]) -> bool
    requires { Counted r × (r.variables ≡ length xs.now) }
    ensures { result ≡ agrees_on (routine_of r) xs.now }
{
    original(r, xs) == masked(r, xs)
}

// Makes up to so many trials of an accepted text's routine; stops at the first that differs.
pub fn try_all(r: Accepted, t: Trials) -> Option<Differing>
    ensures { found_of r.routine.variables result
        ≡ try (routine_of r.routine) t.count t.start }
{
    let v = r.routine.variables;
    let mut n = t.start;
    // the first `made` trials agree, and n is the number after them
    for made in 0..t.count as usize {
        let Trial { bytes, next } = draw(n, v);
        if !agrees_on(r.routine, &bytes[..v]) {
            return Some(Differing {
                made: made + 1,
                bytes,
            });
        }
        n = next;
    }
    None
}
