// Plays rows that stand in tables, the runs on standard input one after the other: 4 bytes give how many there are; each has `m` (the
// measured player) or `s` (the source's), how many block rows and tone rows (2 bytes each), the block that is started from (4 bytes), how
// many calls (2 bytes, at most 1,000), the tape's length (4 bytes), each call's count (4 bytes),
// the words of the block rows and of the tone rows (4 bytes each), and the tape. Numbers are little-endian.
#![tactic(auto)]

ghost use Rattle.std.specs.Prelude.{◌≤◌};

use gate_input::{LARGEST, read_bytes, read_count, read_number, read_words};
use play_entries::Mounted;
use prog_calls::say_calls;
use rows::{BLOCK_TABLE, Block, Row, TONE_TABLE, Tone};

// What is printed of a run.
fn print(m: &Mounted<'_>, measured: bool, from: usize, counts: &[u8], calls: usize)
    requires { calls ≤ 1000 }
{
    let mut out = [0u8; 256000];
    let k = say_calls(m, measured, from as u64, counts, calls, &mut out);
    io::write_all(1, &out[..k]);
}

// A run over the counts, rows and tape that are read next; rows and tape fill what is lent.
fn run(
    tape: &mut [u8],
    blocks: &mut [u64],
    tones: &mut [u64],
    count: usize,
    measured: bool,
    from: usize,
    calls: usize,
)
    requires { calls ≤ 1000 }
{
    let mut counts = io::buffer();
    read_bytes(&mut counts, 4 * calls);
    read_words(blocks);
    read_words(tones);
    io::read_full(0, tape);
    let m = Mounted {
        tape,
        tones,
        blocks,
        count: count as u64,
    };
    print(&m, measured, from, &counts, calls);
}

// One run.
fn rehear(bytes: &mut [u8], blocks: &mut [u64], tones: &mut [u64]) {
    let player = read_number(1, 255);
    let count = read_number(2, blocks.len() / Block::WORDS);
    let others = read_number(2, tones.len() / Tone::WORDS);
    let from = read_number(4, LARGEST);
    let calls = read_number(2, 1000);
    let n = read_number(4, bytes.len());
    run(
        &mut bytes[..n],
        &mut blocks[..Block::WORDS * count],
        &mut tones[..Tone::WORDS * others],
        count,
        player == b'm' as usize,
        from,
        calls,
    );
}

// n runs.
fn rehear_all(bytes: &mut [u8], blocks: &mut [u64], tones: &mut [u64], n: usize) {
    for _ in 0..n {
        rehear(bytes, blocks, tones);
    }
}

fn main() {
    let n = read_count();
    let mut bytes = io::large_buffer();
    let mut blocks = [0u64; BLOCK_TABLE];
    let mut tones = [0u64; TONE_TABLE];
    rehear_all(&mut bytes, &mut blocks, &mut tones, n);
}
