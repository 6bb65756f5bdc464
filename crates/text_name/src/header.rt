// A header's name as text.
ghost use Rattle.std.specs.Prelude.{◌+◌, ◌^◌, ◌≤◌, ◌<◌, length};
ghost use Rattle.text_out.specs.Writes.{Writes};
ghost use Rattle.text_name.specs.Headers.{type_name, header_name};

use text_out::Writer;

// What a header's type byte is called.
#[tactic(auto, unfolding(crate::specs::Headers::type_name))]
fn put_type(w: &mut Writer<'_>, kind: u8)
    requires { w.old.at + 25 < 2 ^ 63 }
    ensures { Writes w.old (type_name kind) w.new }
{
    match kind {
        0 => w.bytes(b"Program"),
        1 => w.bytes(b"Array"),
        2 | 4..=255 => w.said(b"Type ", u64::from(kind)),
        // 3 alone is left: so the range is a test of its own
        _ => w.bytes(b"Bytes"),
    }
}

// The name of the header whose data begin at `start`.
#[tactic(auto, using(text_out::proofs::Writing::composed, crate::proofs::Headers::type_length), unfolding(crate::specs::Headers::header_name))]
pub(crate) fn put_header(w: &mut Writer<'_>, tape: &[u8], start: usize)
    requires { (start + 12 ≤ length tape.now) × (w.old.at + 128 < 2 ^ 63) }
    ensures { Writes w.old (header_name tape.now start) w.new }
{
    put_type(w, tape[start + 1]);
    w.bytes(b": ");
    text_codes::put_spelled(w, &tape[start + 2..start + 12]);
}
