// The two levels that run along a tape in the document reading, and what a tone row does to them, by arithmetic.
#![tactic(auto)]

ghost use Rattle.std.specs.Prelude.{◌≡◌};
ghost use Rattle.play_levels.specs.Voiced.{behind};
ghost use Rattle.play_levels.specs.Closed.{is_one, times_of, turned, first_level, line_after};

use rows::Tone;

// The level at which the next pulse is played, and the level last played.
#[derive(Clone, Copy)]
pub struct Line {
    pub current: bool,
    pub played: bool,
}

// Whether a repetition is one pulse.
pub fn is_one(t: Tone) -> bool
    ensures { result ≡ is_one t }
{
    t.wave % 3 == 1
}

// The repetitions that have pulses.
#[tactic(auto, unfolding(crate::specs::Closed::times_of))]
pub fn times_of(t: Tone) -> u64
    ensures { result ≡ times_of t }
{
    if t.wave % 3 == 0 { 0 } else { t.num }
}

// A level turned n times.
#[tactic(auto, unfolding(crate::specs::Closed::turned))]
fn turned(n: u64, v: bool) -> bool
    ensures { result ≡ turned n v }
{
    if n % 2 == 0 { v } else { !v }
}

// The level of the first pulse of repetition q, l being the line before the row.
#[tactic(auto, unfolding(crate::specs::Closed::first_level))]
pub fn first_level(t: Tone, l: Line, q: u64) -> bool
    ensures { result ≡ first_level t l q }
{
    let one = is_one(t);
    match t.wave / 3 {
        0 if one => turned(q, l.current),
        0 => l.current,
        1 if one => l.played,
        1 => turned(q, l.played),
        begin => begin != 2,
    }
}

// The line behind a pulse of this level.
pub fn behind(v: bool) -> Line
    ensures { result ≡ behind v }
{
    Line {
        current: !v,
        played: v,
    }
}

// The line behind a tone row.
#[tactic(auto, unfolding(crate::specs::Closed::line_after, crate::specs::Closed::line_before))]
pub fn line_after(t: Tone, l: Line) -> Line
    ensures { result ≡ line_after t l }
{
    let n = times_of(t);
    if n == 0 {
        return l;
    }
    let v = first_level(t, l, n - 1);
    behind(if is_one(t) { v } else { !v })
}
