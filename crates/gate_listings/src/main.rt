// Lists the tapes on standard input one after the other: 4 bytes give how many there are; each has a model's number (1 byte), the tape's
// length (4 bytes), at most 65,536, and the tape. Numbers are little-endian.
#![tactic(auto)]

ghost use Rattle.std.specs.Prelude.{◌≤◌, length};

use gate_input::{read_count, read_counted, read_number};
use listing::say;

// One tape, and what is printed of it.
fn list_one(bytes: &mut [u8], out: &mut [u8])
    requires { 300000 ≤ length out.old }
{
    let model = read_number(1, 255) as u32;
    let n = read_counted(bytes);
    let k = say(&bytes[..n], model, out);
    io::write_all(1, &out[..k]);
}

// n tapes.
fn list_all(bytes: &mut [u8], out: &mut [u8], n: usize)
    requires { 300000 ≤ length out.old }
{
    for _ in 0..n {
        list_one(bytes, out);
    }
}

fn main() {
    let n = read_count();
    let mut bytes = io::large_buffer();
    let mut out = [0u8; 300000];
    list_all(&mut bytes, &mut out, n);
}
