// The exports for Rust and C: each calls the function of crate outside that has its name, and
// promises the same.
#![tactic(auto)]

ghost use Rattle.verdict.specs.Judge.{default_trials};
ghost use Rattle.outside.specs.Numbers.{trials_of, JudgeTold, ReadTold, RunTold, MapTold};

// Judges a text with the default trials and tells the six numbers of the report, the verdict's
// first; answers 1, or 0 where fewer than six numbers are lent.
#[unsafe(no_mangle)]
pub extern "C" fn bench_judge(
    text: &[u8],
    left: &mut [u8],
    right: &mut [u8],
    list: &mut [u8],
    numbers: &mut [u64],
) -> u8
    ensures { JudgeTold default_trials text.now left.old
        right.old list.old numbers.old result left.new
        right.new list.new numbers.new }
{
    outside::bench_judge(text, left, right, list, numbers)
}

// So with at most `count` trials from the number `start`.
#[unsafe(no_mangle)]
pub extern "C" fn bench_judge_with(
    text: &[u8],
    count: u32,
    start: u32,
    left: &mut [u8],
    right: &mut [u8],
    list: &mut [u8],
    numbers: &mut [u64],
) -> u8
    ensures { JudgeTold (trials_of count start) text.now left.old
        right.old list.old numbers.old result left.new
        right.new list.new numbers.new }
{
    outside::bench_judge_with(text, count, start, left, right, list, numbers)
}

// Reads a text and tells three numbers: its variables, the refusal and the line; answers 1, or 0
// where fewer than three numbers are lent.
#[unsafe(no_mangle)]
pub extern "C" fn bench_read(text: &[u8], numbers: &mut [u64]) -> u8
    ensures { ReadTold text.now numbers.old result
        numbers.new }
{
    outside::bench_read(text, numbers)
}

// Runs a text on bytes and tells four numbers: the original's result, the XOR of the output shares,
// the refusal and the line; answers 1, or 0 where fewer than four numbers are lent.
#[unsafe(no_mangle)]
pub extern "C" fn bench_run(text: &[u8], bytes: &[u8], numbers: &mut [u64]) -> u8
    ensures { RunTold text.now bytes.now numbers.old result
        numbers.new }
{
    outside::bench_run(text, bytes, numbers)
}

// Tells ten numbers of the map that is given as nine bytes: its eight coefficients, the refusal and
// the line; answers 1, or 0 where fewer than ten numbers are lent.
#[unsafe(no_mangle)]
pub extern "C" fn bench_coefficients(list: &[u8], numbers: &mut [u64]) -> u8
    ensures { MapTold list.now numbers.old result
        numbers.new }
{
    outside::bench_coefficients(list, numbers)
}
