// Why a text, a run or a map is refused.
ghost use Rattle.std.specs.Prelude.{◌≡◌};
ghost use Rattle.tokens.specs.Refusal.{number};

// The refusals of the rules, in their order: 1 to 14.
#[derive(Clone, Copy, PartialEq, Eq, Debug)]
pub enum Refusal {
    // A work buffer or the byte list is too short.
    ShortBuffer,
    // The text is too long.
    LongText,
    // A byte that may not stand in a line.
    StrangeByte,
    // The last line lacks its line feed.
    NoLineFeed,
    // No such record, a wrong number of fields, or a field not of its form.
    Form,
    // The record may not stand here, or the text ends too early.
    Order,
    // The name is already given, or an output repeats.
    NameTaken,
    // A name that is read is not given above.
    UnknownName,
    // A limit is exceeded.
    TooMany,
    // An output has not k names.
    OutputCount,
    // A run has not one byte for each variable.
    ByteCount,
    // A map's list has not nine bytes.
    ListLength,
    // A formula nests above 8.
    TooDeep,
    // There are too many trials.
    TrialCount,
}

impl Refusal {
    // Its number, 1 to 14.
    pub fn number(self) -> u8
        ensures { result ≡ number self }
    {
        self as u8 + 1
    }
}
