// A block's name as text; a header's is in `header`.
#![tactic(auto)]

mod header;

ghost use Rattle.std.specs.Prelude.{◌≡◌, ◌+◌, ◌*◌, ◌^◌, ◌≤◌, ◌<◌, length, get_or};
ghost use Rattle.text_out.specs.Writes.{Writes};
ghost use Rattle.text_name.specs.Names.{is_header, size_shown, size_name, guessed, name_of};

use rows::Block;
use text_out::Writer;

// The number of `n bytes`.
#[tactic(auto, unfolding(crate::specs::Names::size_shown))]
fn size_shown(r: Block) -> u64
    ensures { result ≡ size_shown r }
{
    if r.size == 0 { r.tones / 8 } else { r.size }
}

// The name of a block by its size.
#[tactic(auto, using(text_out::proofs::Writing::composed), unfolding(crate::specs::Names::size_name))]
fn put_size(w: &mut Writer<'_>, r: Block)
    requires { w.old.at + 128 < 2 ^ 63 }
    ensures { Writes w.old (size_name r) w.new }
{
    w.decimal(size_shown(r));
    w.bytes(b" bytes");
}

// The byte at a place, 0 past the end: so that the pass asks nothing of its rows.
fn byte_at(tape: &[u8], place: u64) -> u8
    ensures { result ≡ get_or tape.now place 0 }
{
    tape.get(place as usize).copied().unwrap_or(0)
}

// Whether a block's data are a header.
#[tactic(auto, unfolding(crate::specs::Names::is_header))]
pub fn is_header(tape: &[u8], r: Block) -> bool
    ensures { result ≡ is_header tape.now r }
{
    r.size == 19 && byte_at(tape, r.start) == 0
}

// The name of a block to which none was given.
#[tactic(auto, using(crate::proofs::Naming::header_size), unfolding(crate::specs::Names::guessed))]
fn put_guessed(w: &mut Writer<'_>, tape: &[u8], r: Block)
    requires { (r.start + r.size ≤ length tape.now) × (w.old.at + 128 < 2 ^ 63) }
    ensures { Writes w.old (guessed tape.now r) w.new }
{
    if is_header(tape, r) {
        header::put_header(w, tape, r.start as usize);
    } else {
        put_size(w, r);
    }
}

// A block's name. Asked of the row: its data and its given name are places inside the tape, as in a well-formed row.
#[tactic(auto, unfolding(crate::specs::Names::name_of))]
pub fn put_name(w: &mut Writer<'_>, tape: &[u8], r: Block)
    requires size_in_bounds { (r.start + r.size ≤ length tape.now) × (r.text + r.chars ≤ length tape.now) }
    requires chars_bound { w.old.at + 2 * r.chars + 128 < 2 ^ 63 }
    ensures { Writes w.old (name_of tape.now r) w.new }
{
    match r.named {
        0 => put_guessed(w, tape, r),
        1 => w.bytes(b"stop"),
        _ => {
            let from = r.text as usize;
            w.latin(&tape[from..from + r.chars as usize]);
        }
    }
}
