// A block's entries by their phases: which there are, how long each is.
#![tactic(auto)]

ghost use Rattle.std.specs.Prelude.{◌≡◌, true, not, ◌&&◌, ◌<◌, ltb};
ghost use Rattle.rows.specs.Well.{well_tone};
ghost use Rattle.play_entries.specs.Entries.{cycles_of, is_single, cycle_pulses, cycle_time, edged, bits_at, bit_of, half_of, edge_time};
ghost use Rattle.play_entries.specs.Entries.{rest_of, whole_pause, pause_of};
ghost use Rattle.play_entries.specs.Places.{cycle_half, remains};
ghost use Rattle.play_entries.specs.Source.{level_of};

mod toned;

use play_entries::{Duration, Phase};
use play_levels::{is_one, times_of};
use rows::{Block, Tone};
pub use toned::TonedRow;

// The repetitions of a tone row: in a source row, 0 as one.
#[tactic(auto, unfolding(play_entries::specs::Entries::cycles_of))]
pub fn cycles_of(r: Block, t: Tone) -> u64
    ensures { result ≡ cycles_of r t }
{
    if r.sort == 0 {
        t.num.max(1)
    } else {
        times_of(t)
    }
}

// Whether a repetition is one pulse.
#[tactic(auto, unfolding(play_entries::specs::Entries::is_single))]
pub fn is_single(r: Block, t: Tone) -> bool
    ensures { result ≡ is_single r t }
{
    r.sort != 0 && is_one(t)
}

// How many pulses a repetition has.
pub fn cycle_pulses(r: Block, t: Tone) -> u64
    ensures { result ≡ cycle_pulses r t }
{
    if is_single(r, t) { 1 } else { 2 }
}

// T-states of a repetition of a tone row, which its callers know to be well formed.
pub fn cycle_time(r: Block, t: Tone) -> u64
    requires { well_tone t ≡ true }
    ensures { result ≡ cycle_time r t }
{
    if is_single(r, t) {
        t.len1
    } else {
        t.len1 + t.len2
    }
}

// The bits of a block's data byte at pos, which its callers know to be one.
#[tactic(auto, unfolding(play_entries::specs::Entries::bits_at))]
pub fn bits_at(r: Block, pos: u64) -> u64
    requires { pos < r.size }
    ensures { result ≡ bits_at r pos }
{
    if pos + 1 == r.size { r.last.max(1) } else { 8 }
}

// Whether an edge stands before the pause.
#[tactic(auto, unfolding(play_entries::specs::Entries::edged))]
pub fn is_edged(r: Block) -> bool
    ensures { result ≡ edged r }
{
    r.sort != 0 && r.endless != 1 && r.pause != 0
}

// The edge's T-states.
pub fn edge_time(r: Block) -> u64
    ensures { result ≡ edge_time r }
{
    r.pause.min(3500)
}

// What the edge leaves of a pause.
fn rest_of(r: Block) -> u64
    ensures { result ≡ rest_of r }
{
    if is_edged(r) {
        r.pause - edge_time(r)
    } else {
        r.pause
    }
}

// A row's whole pause, endless for a stop.
#[tactic(auto, unfolding(play_entries::specs::Entries::whole_pause))]
pub fn whole_pause(r: Block) -> Duration
    ensures { result ≡ whole_pause r }
{
    if r.endless == 1 {
        Duration::Endless
    } else {
        Duration::T(r.pause)
    }
}

// A block's pause, endless for a stop; without the edge.
#[tactic(auto, unfolding(play_entries::specs::Entries::pause_of))]
pub fn pause_of(r: Block) -> Duration
    ensures { result ≡ pause_of r }
{
    if r.endless == 1 {
        Duration::Endless
    } else {
        Duration::T(rest_of(r))
    }
}

// T-states of either half of bit k, one of 8, of a byte; our crates alone call it.
#[tactic(auto, unfolding(play_entries::specs::Entries::half_of))]
pub fn half_of(v: u8, k: u64, r: Block) -> u64
    requires { k < 8 }
    ensures { result ≡ half_of r (bit_of v k) }
{
    if (v >> (7 - k)) % 2 == 0 {
        r.zero
    } else {
        r.one
    }
}

// T-states of a half of a tone row's cycle.
pub fn cycle_half(t: Tone, last: bool) -> u64
    ensures { result ≡ cycle_half t last }
{
    if last { t.len2 } else { t.len1 }
}

// Whether a tone row has this pulse.
fn has_pulse(r: Block, t: Tone, p: u64, last: bool) -> bool
    ensures { result ≡ (ltb p (cycles_of r t) && not (last && is_single r t)) }
{
    p < cycles_of(r, t) && !(last && is_single(r, t))
}

// Whether so much may be left of an entry of this length.
#[tactic(auto, unfolding(play_entries::specs::Places::remains))]
pub fn may_remain(left: Duration, length: Duration) -> bool
    ensures { result ≡ remains left length }
{
    match (left, length) {
        (Duration::T(n), Duration::T(t)) => t.min(1) <= n && n <= t,
        (Duration::Endless, Duration::Endless) => true,
        _ => false,
    }
}

// The level of a source row's entry.
#[tactic(auto, unfolding(play_entries::specs::Source::level_of))]
pub fn mic(f: Phase) -> bool
    ensures { result ≡ level_of f }
{
    matches!(
        f,
        Phase::Tones {
            last_half: true,
            ..
        } | Phase::Data {
            last_half: true,
            ..
        }
    )
}
