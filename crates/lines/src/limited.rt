// What is known, within the limits of a text.
ghost use Rattle.lines.specs.Known.{Sound};

use crate::known::Known;

// What the lines above have given: its counts are within their limits.
#[derive(Clone, Copy)]
pub struct Limited {
    pub known: Known,
    ghost sound: { Sound known },
}
