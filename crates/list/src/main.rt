// Lists the tape on standard input: `4`, `1` or `3`, then up to 65,535 bytes; prints the listing, or `refused n`.
#![tactic(auto)]

ghost use Rattle.std.specs.Prelude.{◌≡◌, ◌≤◌, length, take};
ghost use Rattle.io.specs.Counts.{IsPrefixLen};
ghost use Rattle.listing.specs.Printed.{printed_of};
ghost use Rattle.list.specs.Heard.{listing_heard};

use listing::{say, say_refused};
use prog_model::model_of;
use refusals::BAD_MODEL;

// What is printed of the input, into the front of `out`; the count of its bytes.
fn answer(input: &[u8], out: &mut [u8]) -> usize
    requires { 300000 ≤ length out.old }
    ensures prefix_len { IsPrefixLen result out.new }
    ensures out_after { take result out.new ≡ printed_of (listing_heard input.now) }
{
    if input.len() == 0 {
        return say_refused(out, BAD_MODEL);
    }
    let model = model_of(input[0]);
    say(&input[1..], model, out)
}

// One byte more than a tape may have, so that the answer tells a longer one; it decides everything.
fn main() {
    let mut input = [0u8; 65537];
    let n = io::read_full(0, &mut input);
    let mut out = [0u8; 300000];
    let k = answer(&input[..n], &mut out);
    io::write_all(1, &out[..k]);
}
