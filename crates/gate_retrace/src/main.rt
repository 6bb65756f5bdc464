// Prints the runs on standard input one after the other: 4 bytes give how many there are;
// each has its length (4 bytes) and its description.
#![tactic(auto)]

use gate_input::{read_count, read_counted};
use prog_calls::say_trace;

// One run.
fn retrace(bytes: &mut [u8]) {
    let n = read_counted(bytes);
    let mut out = [0u8; 256000];
    let k = say_trace(&bytes[..n], &mut out);
    io::write_all(1, &out[..k]);
}

// n runs.
fn retrace_all(bytes: &mut [u8], n: usize) {
    for _ in 0..n {
        retrace(bytes);
    }
}

fn main() {
    let n = read_count();
    let mut bytes = io::large_buffer();
    retrace_all(&mut bytes, n);
}
