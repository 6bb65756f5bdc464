// A name as a listing shows it.
ghost use Rattle.std.specs.Prelude.{◌≡◌, ◌+◌, ◌^◌, ◌<◌, length};
ghost use Rattle.text_out.specs.Writes.{Writes};
ghost use Rattle.text_listing.specs.Shown.{shown, is_c1, printed, width};

use text_out::Writer;

// Whether a code point from 128 to 159 begins at i: C2 and a byte below A0.
fn is_c1(name: &[u8], i: usize) -> bool
    requires { i < length name.now }
    ensures { result ≡ is_c1 name.now i }
{
    matches!(&name[i..], [0xC2, b, ..] if *b < 0xA0)
}

// How a code point prints that begins with the byte b.
fn shown_as(c1: bool, b: u8) -> u8
    ensures { result ≡ printed c1 b }
{
    if c1 || b < 32 || b == 127 { b'?' } else { b }
}

// The bytes that it takes.
fn width_of(c1: bool) -> usize
    ensures { result ≡ width c1 }
{
    if c1 { 2 } else { 1 }
}

// A name with `?` for its control characters; our crates alone call it. The loop goes on by what it reads.
pub(crate) fn put_shown(w: &mut Writer<'_>, name: &[u8])
    requires { w.old.at + length name.now < 2 ^ 63 }
    ensures { Writes w.old (shown name.now) w.new }
{
    let mut i = 0;
    while i < name.len() {
        let c1 = is_c1(name, i);
        w.byte(shown_as(c1, name[i]));
        i += width_of(c1);
    }
}
