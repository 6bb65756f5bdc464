// Loads the tapes on standard input one after the other and prints what each load answers: 4 bytes give how many there are; each has a
// model's number (1 byte), the tape's length (4 bytes), at most 1,048,577, and the tape. Numbers are little-endian.
#![tactic(auto)]

ghost use Rattle.std.specs.Prelude.{◌≤◌, length};

use gate_input::{read_count, read_counted, read_number};
use prog_unread::{FULL_BLOCKS, FULL_TONES, say_unread};

// One tape, and what is printed of it.
fn load_one(bytes: &mut [u8], blocks: &mut [u64], tones: &mut [u64], out: &mut [u8])
    requires { 256 ≤ length out.old }
{
    let model = read_number(1, 255) as u32;
    let n = read_counted(bytes);
    let k = say_unread(&bytes[..n], model, blocks, tones, out);
    io::write_all(1, &out[..k]);
}

// n tapes.
fn load_all(bytes: &mut [u8], blocks: &mut [u64], tones: &mut [u64], out: &mut [u8], n: usize)
    requires { 256 ≤ length out.old }
{
    for _ in 0..n {
        load_one(bytes, blocks, tones, out);
    }
}

// One byte more than a tape may have, so that a longer one is told.
fn main() {
    let n = read_count();
    let mut bytes = [0u8; 1048577];
    let mut blocks = [0u64; FULL_BLOCKS];
    let mut tones = [0u64; FULL_TONES];
    let mut out = [0u8; 256];
    load_all(&mut bytes, &mut blocks, &mut tones, &mut out, n);
}
