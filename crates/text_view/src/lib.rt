// The line that shows a view, part by part, each written into lent bytes: a program prints them one after the other.
// Its numbers are in `figures`, what stands behind them is here. Our programs alone call them.
#![tactic(auto)]

mod figures;

ghost use Rattle.std.specs.Prelude.{◌≡◌, ◌+◌, ◌*◌, ◌^◌, ◌<◌, ◌≤◌, length};
ghost use Rattle.rows.specs.Rows.{tone};
ghost use Rattle.text_out.specs.Writes.{Writes};
ghost use Rattle.text_view.specs.View.{tones_from};
ghost use Rattle.text_view.specs.Dump.{digit, hex, hex_all, tone_text, tones_text};

pub use figures::put_head;
use rows::{Tone, row_at};
use text_out::{Spelling, Writer};

// The digit of a number below 16; `char::from_digit` is no plainer: it answers an Option of a char.
#[tactic(auto, unfolding(crate::specs::Dump::digit))]
fn digit(d: u8) -> u8
    requires { d < 16 }
    ensures { result ≡ digit d }
{
    if d < 10 { 48 + d } else { 87 + d }
}

// A byte as two digits.
pub struct Hex;

impl Spelling for Hex {
    ghost text = { hex };

    ghost most = { 2 };

    #[tactic(auto, using(text_out::proofs::Writing::composed), unfolding(crate::specs::Dump::hex))]
    fn put(w: &mut Writer<'_>, b: u8) {
        w.byte(digit(b / 16));
        w.byte(digit(b % 16));
    }
}

// All of s, two digits a byte.
pub fn put_hex(w: &mut Writer<'_>, s: &[u8])
    requires { w.old.at + 2 * length s.now ≤ 2 ^ 63 }
    ensures { Writes w.old (hex_all s.now) w.new }
{
    w.each::<Hex>(s);
}

// A tone row.
#[tactic(auto, using(text_out::proofs::Writing::composed), unfolding(crate::specs::Dump::tone_text))]
fn put_tone(w: &mut Writer<'_>, t: Tone)
    requires { w.old.at + 63 < 2 ^ 63 }
    ensures { Writes w.old (tone_text t) w.new }
{
    w.decimal(t.num);
    w.byte(b'x');
    w.decimal(t.len1);
    w.byte(b'/');
    w.decimal(t.len2);
    w.byte(b',');
}

// n tone rows from row `from` on.
#[tactic(auto, using(text_out::proofs::Writing::composed, crate::proofs::Parts::rows_more))]
pub fn put_tones(w: &mut Writer<'_>, tones: &[u64], from: usize, n: usize)
    requires width_in_bounds { (from + n) * tone.width ≤ length tones.now }
    requires n_bound { w.old.at + 63 * n < 2 ^ 62 }
    ensures { Writes w.old (tones_text (tones_from tones.now from n)) w.new }
{
    for i in 0..n {
        put_tone(w, row_at(tones, from + i));
    }
}
