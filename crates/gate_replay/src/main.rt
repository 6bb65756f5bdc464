// Loads the tapes on standard input one after the other and prints each answer: 4 bytes give how many there are; each has a model's number
// (1 byte), what is lent of the block table and of the tone table (rows, 4 bytes, and words of a broken row, 1 byte, of each), the tape's
// length (4 bytes), and the tape. Numbers are little-endian.
// Rows are counted, not words, so that the input stays as it is when a row grows.
#![tactic(auto)]

ghost use Rattle.std.specs.Prelude.{◌+◌, ◌*◌, ◌≤◌, ◌<◌, length};

use gate_input::{read_count, read_counted, read_number};
use prog_tape::{begin, block_line};
use rows::{Block, Row, Tone};

// More rows than 4,096 and 65,536, so that a table may be longer than its limit.
const LONG_BLOCK_TABLE: usize = 4101 * Block::WORDS;

const LONG_TONE_TABLE: usize = 65566 * Tone::WORDS;

// Every line of a tape; that each is written once and in order is all that no contract says.
fn print(tape: &[u8], model: u32, blocks: &mut [u64], tones: &mut [u64], out: &mut [u8])
    requires { 1200 + 2 * length tape.now + 5 * length tones.old ≤ length out.old }
{
    let opening = begin(tape, model, blocks, tones, out);
    let size = opening.size;
    io::write_all(1, &out[..size]);
    for i in 0..opening.more as usize {
        let k = block_line(tape, tones, blocks, i, out);
        io::write_all(1, &out[..k]);
    }
}

// The words lent of a table that has `most`: rows of `width` words, and words of a broken row, as many as the input says.
fn read_lent(width: usize, most: usize) -> usize
    requires { 0 < width }
    ensures { result ≤ most }
{
    let whole = read_number(4, most / width) * width;
    whole + read_number(1, most - whole)
}

// One tape.
fn replay(bytes: &mut [u8], blocks: &mut [u64], tones: &mut [u64], out: &mut [u8])
    requires { 1200 + 2 * length bytes.old + 5 * length tones.old ≤ length out.old }
{
    let model = read_number(1, 255) as u32;
    let b = read_lent(Block::WORDS, blocks.len());
    let t = read_lent(Tone::WORDS, tones.len());
    let n = read_counted(bytes);
    print(&bytes[..n], model, &mut blocks[..b], &mut tones[..t], out);
}

// n tapes.
fn replay_all(bytes: &mut [u8], blocks: &mut [u64], tones: &mut [u64], out: &mut [u8], n: usize)
    requires { 1200 + 2 * length bytes.old + 5 * length tones.old ≤ length out.old }
{
    for _ in 0..n {
        replay(bytes, blocks, tones, out);
    }
}

fn main() {
    let n = read_count();
    let mut bytes = io::large_buffer();
    let mut blocks = [0u64; LONG_BLOCK_TABLE];
    let mut tones = [0u64; LONG_TONE_TABLE];
    let mut out = [0u8; 1450000];
    replay_all(&mut bytes, &mut blocks, &mut tones, &mut out, n);
}
