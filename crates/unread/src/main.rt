// Reads a model byte (`4`, `1`, `3`) and up to 1,048,576 tape bytes from standard input, and prints what a load answers: the format that
// was read, or `refused n`; of refusal 3 also what both attempts met.
#![tactic(auto)]

ghost use Rattle.std.specs.Prelude.{◌≡◌, ◌≤◌, length};
ghost use Rattle.text_out.specs.Out.{Fitted};
ghost use Rattle.prog_unread.specs.Report.{full_blocks, full_tones};
ghost use Rattle.unread.specs.Heard.{unread_heard};

use load_tape::NotLoaded;
use prog_model::model_of;
use prog_unread::{FULL_BLOCKS, FULL_TONES, put_report, say_unread};
use refusals::BAD_MODEL;

// What is printed of the input, into the front of `out`; the count of its bytes.
fn answer(input: &[u8], blocks: &mut [u64], tones: &mut [u64], out: &mut [u8]) -> usize
    requires blocks_len { (length blocks.old ≡ full_blocks) × (length tones.old ≡ full_tones) }
    requires in_bounds { 256 ≤ length out.old }
    ensures { Fitted (unread_heard input.now) out.old out.new result }
{
    if input.len() == 0 {
        return put_report(out, Err(NotLoaded::Refused(BAD_MODEL)));
    }
    let model = model_of(input[0]);
    say_unread(&input[1..], model, blocks, tones, out)
}

// Reads the input into lent bytes, and writes what the answer says of it.
fn print(input: &mut [u8], blocks: &mut [u64], tones: &mut [u64], out: &mut [u8])
    requires blocks_len { (length blocks.old ≡ full_blocks) × (length tones.old ≡ full_tones) }
    requires in_bounds { 256 ≤ length out.old }
{
    let n = io::read_full(0, input);
    let k = answer(&input[..n], blocks, tones, out);
    io::write_all(1, &out[..k]);
}

// One byte more than a tape may have, so that a longer one is told; the answer decides everything.
fn main() {
    let mut input = [0u8; 1048578];
    let mut blocks = [0u64; FULL_BLOCKS];
    let mut tones = [0u64; FULL_TONES];
    let mut out = [0u8; 256];
    print(&mut input, &mut blocks, &mut tones, &mut out);
}
