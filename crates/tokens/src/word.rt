// The word of a record.
ghost use Rattle.std.specs.Prelude.{◌≡◌};
ghost use Rattle.tokens.specs.Word.{word_of};

// The word that a record begins with; Unknown stands for every other: the definitions `may_have`
// and `record_for` treat it as a word like any other.
#[derive(Clone, Copy, PartialEq, Eq, Debug)]
pub enum Word {
    Shares,
    Map,
    Input,
    Origin,
    Set,
    Xor,
    Mul,
    App,
    Let,
    Rand,
    Result,
    Masked,
    Output,
    Unknown,
}

// The words of records, each beside its spelling. The most frequent come first.
const WORDS: [(&[u8], Word); 13] = [
    (b"xor", Word::Xor),
    (b"mul", Word::Mul),
    (b"set", Word::Set),
    (b"let", Word::Let),
    (b"app", Word::App),
    (b"rand", Word::Rand),
    (b"shares", Word::Shares),
    (b"map", Word::Map),
    (b"input", Word::Input),
    (b"origin", Word::Origin),
    (b"result", Word::Result),
    (b"masked", Word::Masked),
    (b"output", Word::Output),
];

// The word that the bytes spell.
pub fn word_of(f: &[u8]) -> Word
    ensures { result ≡ word_of f.now }
{
    match WORDS.iter().find(|w| f == w.0) {
        Some(w) => w.1,
        None => Word::Unknown,
    }
}
