// Small values as text: a flag, a duration. Our crates alone call it: the place is far from overflow.
#![tactic(auto)]

ghost use Rattle.std.specs.Prelude.{◌+◌, ◌^◌, ◌<◌, ◌≤◌, length};
ghost use Rattle.text_out.specs.Writes.{Writes};
ghost use Rattle.text_value.specs.Values.{flag, lasts_text, duration_text};

use play_entries::Duration;
use text_out::Writer;

// A mark, a half or a level: 0 or 1.
#[tactic(auto, unfolding(crate::specs::Values::flag))]
pub fn put_flag(w: &mut Writer<'_>, v: bool)
    requires { w.old.at < 2 ^ 63 }
    ensures { Writes w.old (flag v) w.new }
{
    w.byte(if v { b'1' } else { b'0' });
}

// T-states, or a word of at most 20 bytes for what never ends.
pub fn put_lasts(w: &mut Writer<'_>, d: Duration, word: &[u8])
    requires at_bound { w.old.at + 20 < 2 ^ 63 }
    requires word_len_bound { length word.now ≤ 20 }
    ensures { Writes w.old (lasts_text word.now d) w.new }
{
    match d {
        Duration::T(n) => w.decimal(n),
        Duration::Endless => w.bytes(word),
    }
}

// T-states, or `endless`.
#[tactic(auto, unfolding(crate::specs::Values::duration_text))]
pub fn put_duration(w: &mut Writer<'_>, d: Duration)
    requires { w.old.at + 20 < 2 ^ 63 }
    ensures { Writes w.old (duration_text d) w.new }
{
    put_lasts(w, d, b"endless");
}
