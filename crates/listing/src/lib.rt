// The listing: a loaded tape as text, and the function that our catalogue host calls.
#![tactic(auto)]

ghost use Rattle.std.specs.Prelude.{◌≡◌, List, ℕ, ◌<◌, ◌≤◌, length};
ghost use Rattle.play_entries.specs.Mounted.{tape_of};
ghost use Rattle.text_out.specs.Out.{refused_line};
ghost use Rattle.text_listing.specs.Inner.{Ready};
ghost use Rattle.text_listing.specs.Page.{listing_text};
ghost use Rattle.listing.specs.Printed.{printed_of, Says};
ghost use Rattle.listing.specs.Listing.{text, listing_of, answer_to, bytes_after};

use load_tape::Format;
use refusals::{BAD_MODEL, NO_ROOM, TAPE_LONG};
use rows::{BLOCK_TABLE, TONE_TABLE};
use text_listing::put_listing;
use text_out::Writer;

// Bytes that hold the text: where `len` are as many, its most, which is 576 a row; else its own length, by a dry run.
fn enough(len: usize, model: u32, format: Format, tape: &[u8], blocks: &[u64], n: u64) -> usize
    requires { Ready tape.now blocks.now n }
    ensures by_index { (tones : List ℕ)
        → length (listing_text model format (tape_of tape.now tones blocks.now n)) ≤ result }
    ensures by_index_2 { (tones : List ℕ) → len < result
        → result ≡ length (listing_text model format (tape_of tape.now tones blocks.now n)) }
{
    let most = 77 + 576 * n as usize;
    if most <= len {
        return most;
    }
    let mut none = [0u8; 1];
    put_listing(&mut none, model, format, tape, blocks, n)
}

// The text where `out` has room for it, and its length; else 10, and no byte is written: one number, as C asks for it.
fn tell(out: &mut [u8], model: u32, format: Format, tape: &[u8], blocks: &[u64], n: u64) -> u32
    requires { Ready tape.now blocks.now n }
    ensures by_index { (tones : List ℕ) → result
        ≡ answer_to (text (listing_text model format (tape_of tape.now tones blocks.now n)))
        out.old }
    ensures by_index_2 { (tones : List ℕ) → out.new
        ≡ bytes_after (text (listing_text model format (tape_of tape.now tones blocks.now n)))
        out.old }
{
    let k = enough(out.len(), model, format, tape, blocks, n);
    if out.len() < k {
        return NO_ROOM;
    }
    put_listing(out, model, format, tape, blocks, n) as u32
}

// The listing of a tape's bytes for a model; the text's length, or the refusal's number.
pub fn glyvrask_listing(tape: &[u8], model: u32, out: &mut [u8]) -> u32
    ensures value { result ≡ answer_to (listing_of tape.now model) out.old }
    ensures out_after { out.new ≡ bytes_after (listing_of tape.now model) out.old }
{
    if 3 <= model {
        return BAD_MODEL;
    }
    if 65535 < tape.len() {
        return TAPE_LONG;
    }
    let mut blocks = [0u64; BLOCK_TABLE];
    let mut tones = [0u64; TONE_TABLE];
    match load_tape::load(tape, model, &mut blocks, &mut tones) {
        Ok(l) => tell(out, model, l.format, tape, &blocks, l.blocks),
        Err(e) => e.number(),
    }
}

// `refused n` and a line feed; our programs call it, and lend 32 bytes.
pub fn say_refused(out: &mut [u8], k: u32) -> usize
    requires { 32 ≤ length out.old }
    ensures { Says (refused_line k) result out.new }
{
    let mut w = Writer::over(out);
    w.refused_line(k);
    w.at
}

// What a program prints of a tape; our programs call it, and lend 300,000 bytes: no text is longer.
pub fn say(tape: &[u8], model: u32, out: &mut [u8]) -> usize
    requires { 300000 ≤ length out.old }
    ensures { Says (printed_of (listing_of tape.now model)) result out.new }
{
    let n = glyvrask_listing(tape, model, out);
    if n < 32 {
        return say_refused(out, n);
    }
    n as usize
}
