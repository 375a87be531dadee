// The routine of an accepted text, and what holds of it.
ghost use Rattle.text.specs.Ready.{Ready, Ready-prop};

use crate::routine::Routine;

// Its counts are within their limits, its constants are bytes, and each place that is read is given
// above.
#[derive(Clone, Copy)]
pub struct Accepted {
    pub routine: Routine,
    ghost ready: { Ready routine } by { Ready-prop routine },
}
