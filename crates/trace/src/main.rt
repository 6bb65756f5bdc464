// Reads a run's description and its tape from standard input, and prints a line for each call.
#![tactic(auto)]

use prog_calls::say_trace;

// One byte more than a run may have, so that a longer tape is told; the answer decides everything.
fn main() {
    let mut input = [0u8; 69544];
    let n = io::read_full(0, &mut input);
    let mut out = [0u8; 256000];
    let k = say_trace(&input[..n], &mut out);
    io::write_all(1, &out[..k]);
}
