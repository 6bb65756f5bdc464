// The listing for C hosts: the static library of crate `listing`.
#![tactic(auto)]

ghost use Rattle.std.specs.Prelude.{◌≡◌, length};
ghost use Rattle.listing.specs.Listing.{listing_of, answer_to, bytes_after};

// The listing of a tape's bytes for a model; the text's length, or the refusal's number.
#[unsafe(no_mangle)]
pub extern "C" fn glyvrask_listing(tape: &[u8], model: u32, out: &mut [u8]) -> u32
    ensures value { result ≡ answer_to (listing_of tape.now model) out.old }
    ensures out_after { out.new ≡ bytes_after (listing_of tape.now model) out.old }
{
    listing::glyvrask_listing(tape, model, out)
}
