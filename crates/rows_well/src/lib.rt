// Which tone rows and block rows are well formed, and what a pass over tone rows tells beside it.
#![tactic(auto)]

ghost use Rattle.std.specs.Prelude.{◌≡◌, ◌+◌, ◌*◌, ◌≤◌, length};
ghost use Rattle.rows.specs.Rows.{tone};
ghost use Rattle.rows.specs.Well.{inside, well_tones, well_ranges, well_pause, well_last, well_numbers, well_sound, well_levels, well_cases, well_tone, well_block};
ghost use Rattle.rows_well.specs.Seen.{unseen, seeing_row, seen_from, well_seen, steady_seen};
ghost use Rattle.rows_well.specs.Words.{well_words};

use rows::{Block, Tone, capacity, row_at};

// Whether `n` places from `from` on lie among the first `most`.
pub fn ranges(from: u64, n: u64, most: u64) -> bool
    ensures { result ≡ inside from n most }
{
    from <= most && n <= most - from
}

// What was seen of some tone rows: all their words, their waves and 4, their waves and 1, how often they turn a level.
#[derive(Clone, Copy)]
pub struct Seen {
    pub words: u64,
    pub tops: u64,
    pub lows: u64,
    pub turns: u64,
}

// Nothing seen yet.
pub fn none_seen() -> Seen
    ensures { result ≡ unseen }
{
    Seen {
        words: 0,
        tops: 0,
        lows: 0,
        turns: 0,
    }
}

// A tone row more. A limit of all the rows is a limit of the bits gathered, so no row needs a test of its own.
fn see(t: Tone, s: Seen) -> Seen
    ensures { result ≡ seeing_row t s }
{
    Seen {
        words: s.words | t.num | t.len1 | t.len2 | t.wave,
        tops: s.tops | t.wave.wrapping_add(4),
        lows: s.lows | t.wave.wrapping_add(1),
        turns: s.turns ^ (t.num & t.wave),
    }
}

// n tone rows from row `from` on, behind what was seen before; its callers know the rows to be lent.
#[tactic(auto, using(crate::proofs::Gathered::seen_turn, crate::proofs::Gathered::seen_none))]
pub fn tones_seen(tones: &[u64], past: Seen, from: u64, n: u64) -> Seen
    requires { (from + n) * tone.width ≤ length tones.now }
    ensures { result ≡ seen_from tones.now past from n }
{
    let mut s = past;
    for i in from..from + n {
        s = see(row_at(tones, i as usize), s);
    }
    s
}

// Whether the rows seen are well formed.
pub fn seen_well(s: Seen) -> bool
    ensures { result ≡ well_seen s }
{
    s.words <= 65535 && s.tops <= 15
}

// Whether the rows seen are of begin 0: their words tell that no wave wraps.
pub fn seen_steady(s: Seen) -> bool
    ensures { result ≡ steady_seen s }
{
    s.words <= 65535 && s.lows <= 3
}

// Whether a tone row is well formed.
#[tactic(auto, unfolding(rows::specs::Well::well_tone))]
pub fn tone_well(t: Tone) -> bool
    ensures { result ≡ well_tone t }
{
    t.num <= 65535 && t.len1 <= 65535 && t.len2 <= 65535 && t.wave <= 11
}

// Whether n tone rows from row `from` on are well formed; its callers know the rows to be lent.
#[tactic(auto, using(crate::proofs::Gathered::seen_wells))]
pub fn tones_well(tones: &[u64], from: u64, n: u64) -> bool
    requires { (from + n) * tone.width ≤ length tones.now }
    ensures { result ≡ well_tones tones.now from n }
{
    seen_well(tones_seen(tones, none_seen(), from, n))
}

// Whether a block's ranges lie inside the tone table and a tape of `tape` bytes.
#[tactic(auto, unfolding(rows::specs::Well::well_ranges))]
fn ranges_well(tape: u64, tones: &[u64], r: Block) -> bool
    ensures { result ≡ well_ranges tape tones.now r }
{
    ranges(r.tone, r.tones, capacity::<Tone>(tones) as u64)
        && ranges(r.start, r.size, tape)
        && ranges(r.text, r.chars, tape)
}

// Whether a block's pause is endless or within its limit.
fn pause_well(r: Block) -> bool
    ensures { result ≡ well_pause r }
{
    r.endless == 1 || r.pause <= 229372500
}

// Whether a block's last bits are within their limit, which only data has.
fn last_well(r: Block) -> bool
    ensures { result ≡ well_last r }
{
    r.size == 0 || r.last <= 8
}

// Whether a block's numbers are within their limits.
#[tactic(auto, unfolding(rows::specs::Well::well_numbers))]
pub fn numbers_well(r: Block) -> bool
    ensures { result ≡ well_numbers r }
{
    r.zero <= 65535 && r.one <= 65535 && pause_well(r) && last_well(r)
}

// Whether a block's sound is within its limit, 2 ^ 50.
fn sound_well(r: Block) -> bool
    ensures { result ≡ well_sound r }
{
    r.sound < 1125899906842624
}

// Whether a block's levels are 0 or 1.
fn levels_well(r: Block) -> bool
    ensures { result ≡ well_levels r }
{
    r.level <= 1 && r.played <= 1
}

// Whether a block's flags are 0 or 1 and its case numbers named ones.
#[tactic(auto, unfolding(rows::specs::Well::well_cases))]
fn cases_well(r: Block) -> bool
    ensures { result ≡ well_cases r }
{
    r.endless <= 1 && r.selectable <= 1 && levels_well(r) && r.named <= 4 && r.sort <= 1
}

// Whether a block's row is well formed but for its tone rows, over a tape of `tape` bytes.
#[tactic(auto, unfolding(crate::specs::Words::well_words))]
pub fn words_well(tape: u64, tones: &[u64], r: Block) -> bool
    ensures { result ≡ well_words tape tones.now r }
{
    ranges_well(tape, tones, r) && numbers_well(r) && sound_well(r) && cases_well(r)
}

// Whether a block's row is well formed, with its tone rows, over a tape of `tape` bytes.
#[tactic(auto, using(crate::proofs::WordsLaws::words_tones, crate::proofs::WordsLaws::words_lent))]
pub fn block_well(tape: u64, tones: &[u64], r: Block) -> bool
    ensures { result ≡ well_block tape tones.now r }
{
    words_well(tape, tones, r) && tones_well(tones, r.tone, r.tones)
}
