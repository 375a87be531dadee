// The order of records.
ghost use Rattle.std.specs.Prelude.{◌≡◌, eqb};
ghost use Rattle.rules.specs.Order.{may_stand, stage_after, in_masked};
ghost use Rattle.lines.specs.Stage.{stage_of};

use tokens::word::Word;

// How far a text is read.
#[derive(Clone, Copy, PartialEq, Eq, Debug)]
pub enum Stage {
    // Nothing is read yet.
    Start,
    // Behind `shares`, or behind a map.
    Maps,
    // Behind an input.
    Inputs,
    // In the origin block.
    Origin,
    // Behind `result`.
    Result,
    // In the masked block.
    Masked,
    // Behind `output`.
    End,
}

impl Stage {
    // A statement that stands here is one of the masked block.
    pub fn is_masked(self) -> bool
        ensures { result ≡ eqb (stage_of self) in_masked }
    {
        self == Stage::Masked
    }
}

// The word may stand at the stage.
pub(crate) fn may_stand(w: Word, stage: Stage) -> bool
    ensures { result ≡ may_stand w (stage_of stage) }
{
    match w {
        Word::Shares => stage == Stage::Start,
        Word::Map => stage == Stage::Maps,
        Word::Input | Word::Origin => (stage == Stage::Maps) | (stage == Stage::Inputs),
        Word::Set | Word::Xor | Word::Mul | Word::App | Word::Let => {
            (stage == Stage::Origin) | (stage == Stage::Masked)
        }
        Word::Rand => stage == Stage::Masked,
        Word::Result => stage == Stage::Origin,
        Word::Masked => stage == Stage::Result,
        Word::Output => stage == Stage::Masked,
        Word::Unknown => false,
    }
}

// The stage behind a word that may stand at a stage.
pub(crate) fn stage_after(w: Word, stage: Stage) -> Stage
    ensures { stage_of result ≡ stage_after w (stage_of stage) }
{
    match w {
        Word::Shares | Word::Map => Stage::Maps,
        Word::Input => Stage::Inputs,
        Word::Origin => Stage::Origin,
        Word::Result => Stage::Result,
        Word::Masked => Stage::Masked,
        Word::Output => Stage::End,
        Word::Set | Word::Xor | Word::Mul | Word::App | Word::Let => stage,
        Word::Rand | Word::Unknown => stage,
    }
}
