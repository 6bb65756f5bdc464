// Positions as words, and words as positions.
#![tactic(auto)]

ghost use Rattle.std.specs.Prelude.{◌≡◌};
ghost use Rattle.play_entries.specs.declared.Phase.TheVariants.{Tones, Data};
ghost use Rattle.host_words.specs.Words.{flag_of, spot, spot_of, span_of, unhalved, halved, flag_from, phase_from, span_from, position_from};

use play_entries::{Duration, Phase};
use play_walk::Position;

// The words of a phase.
#[derive(Clone, Copy)]
pub struct Spot {
    pub phase: u64,
    pub item: u64,
    pub part: u64,
    pub half: u64,
}

// The words of a duration.
#[derive(Clone, Copy)]
pub struct Span {
    pub endless: u64,
    pub left: u64,
}

#[tactic(auto, unfolding(crate::specs::Words::flag_of))]
pub fn flag(b: bool) -> u64
    ensures { result ≡ flag_of b }
{
    u64::from(b)
}

// A phase's number alone: it uses no further word.
fn bare(phase: u64) -> Spot
    ensures { result ≡ spot phase 0 0 0 }
{
    Spot {
        phase,
        item: 0,
        part: 0,
        half: 0,
    }
}

#[tactic(auto, unfolding(crate::specs::Words::spot_of))]
pub fn spot_of(f: Phase) -> Spot
    ensures { result ≡ spot_of f }
{
    match f {
        Phase::Start => bare(0),
        Phase::Tones {
            index,
            pulse,
            last_half,
        } => Spot {
            phase: 1,
            item: index,
            part: pulse,
            half: flag(last_half),
        },
        Phase::Data {
            pos,
            bit,
            last_half,
        } => Spot {
            phase: 2,
            item: pos,
            part: bit,
            half: flag(last_half),
        },
        Phase::Edge => bare(4),
        Phase::Pause => bare(3),
    }
}

#[tactic(auto, unfolding(crate::specs::Words::span_of))]
pub fn span_of(d: Duration) -> Span
    ensures { result ≡ span_of d }
{
    match d {
        Duration::T(left) => Span { endless: 0, left },
        Duration::Endless => Span {
            endless: 1,
            left: 0,
        },
    }
}

// The flag that a word names.
#[tactic(auto, unfolding(crate::specs::Words::flag_from))]
fn flag_from(w: u64) -> Option<bool>
    ensures { result ≡ flag_from w }
{
    match w {
        0 => Some(false),
        1 => Some(true),
        _ => None,
    }
}

// A phase that uses no further word.
#[tactic(auto, unfolding(crate::specs::Words::unhalved))]
fn bare_phase(f: Phase, s: Spot) -> Option<Phase>
    ensures { result ≡ unhalved f s.item s.part s.half }
{
    (s.item == 0 && s.part == 0 && s.half == 0).then_some(f)
}

// The phase that words name.
#[tactic(auto, unfolding(crate::specs::Words::phase_from, crate::specs::Words::halved, crate::specs::Words::flag_from))]
fn phase_from(s: Spot) -> Option<Phase>
    ensures { result ≡ phase_from s.phase s.item s.part s.half }
{
    match s.phase {
        0 => bare_phase(Phase::Start, s),
        1 => Some(Phase::Tones {
            index: s.item,
            pulse: s.part,
            last_half: flag_from(s.half)?,
        }),
        2 => Some(Phase::Data {
            pos: s.item,
            bit: s.part,
            last_half: flag_from(s.half)?,
        }),
        3 => bare_phase(Phase::Pause, s),
        4 => bare_phase(Phase::Edge, s),
        _ => None,
    }
}

// The duration that words name.
#[tactic(auto, unfolding(crate::specs::Words::span_from))]
fn span_from(s: Span) -> Option<Duration>
    ensures { result ≡ span_from s.endless s.left }
{
    match s.endless {
        0 => Some(Duration::T(s.left)),
        1 if s.left == 0 => Some(Duration::Endless),
        _ => None,
    }
}

// The position that a lent row's first seven words name.
#[tactic(auto, unfolding(crate::specs::Words::position_from, crate::specs::Words::joined))]
pub fn position_from(words: &[u64]) -> Option<Position>
    ensures { result ≡ position_from words.now }
{
    let [block, phase, item, part, half, endless, left, ..] = *words else {
        return None;
    };
    let phase = phase_from(Spot {
        phase,
        item,
        part,
        half,
    })?;
    let left = span_from(Span { endless, left })?;
    Some(Position { block, phase, left })
}
