// Reads a model byte (`4`, `1`, `3`) and up to 65,535 tape bytes from standard input, and prints every block whole, or `refused n`.
#![tactic(auto)]

ghost use Rattle.std.specs.Prelude.{◌≡◌, [], suc, ◌<◌, ◌≤◌, length, get_or};
ghost use Rattle.text_out.specs.Out.{Fitted};
ghost use Rattle.listing.specs.Listing.{block_words, tone_words};
ghost use Rattle.dump.specs.Dumped.{dump_lines, FirstHeard, FirstRefused, Dumping};

use load_tape::NotLoaded;
use prog_model::model_of;
use prog_tape::{Opening, begin, block_line, put_first};
use refusals::{BAD_MODEL, TAPE_LONG};
use rows::{BLOCK_TABLE, TONE_TABLE, blank};

// A refusal: its line alone, and both tables all zero, as a load's own leaves them.
fn refuse(blocks: &mut [u64], tones: &mut [u64], out: &mut [u8], k: u32) -> Opening
    requires { 32 ≤ length out.old }
    ensures { FirstRefused (length blocks.old) (length tones.old) k result
        blocks.new tones.new out.old out.new }
{
    blank(blocks);
    blank(tones);
    put_first(out, Err(NotLoaded::Refused(k)))
}

// The first line, how many follow it, and the tables that they are read from.
#[tactic(auto, using(crate::proofs::Hearing::model_refused))]
fn first(input: &[u8], blocks: &mut [u64], tones: &mut [u64], out: &mut [u8]) -> Opening
    requires blocks_len { (length blocks.old ≡ block_words) × (length tones.old ≡ tone_words) }
    requires in_bounds { 32 ≤ length out.old }
    ensures { FirstHeard input.now result blocks.new tones.new out.old out.new }
{
    if input.len() == 0 {
        return refuse(blocks, tones, out, BAD_MODEL);
    }
    let model = model_of(input[0]);
    if 3 <= model {
        return refuse(blocks, tones, out, BAD_MODEL);
    }
    let tape = &input[1..];
    if 65535 < tape.len() {
        return refuse(blocks, tones, out, TAPE_LONG);
    }
    begin(tape, model, blocks, tones, out)
}

// Line i of those that follow.
fn line(input: &[u8], tones: &[u64], blocks: &[u64], i: usize, out: &mut [u8]) -> usize
    requires dumping { Dumping input.now blocks.now tones.now }
    requires i_in_bounds { suc i < length (dump_lines input.now) }
    requires tones_len { (length tones.now ≡ tone_words) × (180000 ≤ length out.old) }
    ensures { Fitted (get_or (dump_lines input.now) (suc i) []) out.old out.new result }
{
    block_line(&input[1..], tones, blocks, i, out)
}

// All lines; that each is written once and in order is all that no contract says.
fn print(input: &[u8], blocks: &mut [u64], tones: &mut [u64], out: &mut [u8])
    requires blocks_len { (length blocks.old ≡ block_words) × (length tones.old ≡ tone_words) }
    requires in_bounds { 180000 ≤ length out.old }
{
    let opening = first(input, blocks, tones, out);
    let size = opening.size;
    io::write_all(1, &out[..size]);
    for i in 0..opening.more as usize {
        let k = line(input, tones, blocks, i, out);
        io::write_all(1, &out[..k]);
    }
}

// One byte more than a tape may have, so that a longer one is told.
fn main() {
    let mut input = [0u8; 65537];
    let n = io::read_full(0, &mut input);
    let mut blocks = [0u64; BLOCK_TABLE];
    let mut tones = [0u64; TONE_TABLE];
    let mut out = [0u8; 180000];
    print(&input[..n], &mut blocks, &mut tones, &mut out);
}
