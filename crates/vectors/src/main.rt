// Runs the published tables and the stored texts and prints what comes out, one case to a line. The
// texts come from standard input; the first is that of the S-box.
#![tactic(auto)]

mod cases;
mod lists;
mod records;
mod runs;
mod show;
mod stored;
mod tables;

// Prints the tables, then what comes of each stored text.
fn main(rt: HostRuntime) {
    let mut input = rt.stdin();
    let mut output = rt.stdout();
    tables::print_sbox(&mut output);
    tables::print_coefficients(&mut output);
    runs::print_maps(&mut output);
    cases::print_cases(&mut input, &mut output);
}
