// The levels of a block's entries: a source row's by the half, a document row's by the line that runs along its tone rows.
#![tactic(auto)]

ghost use Rattle.std.specs.Prelude.{◌≡◌, true, false, ◌+◌, ◌*◌, ◌≤◌, min, length};
ghost use Rattle.rows.specs.Rows.{block};
ghost use Rattle.rows.specs.Well.{well_tones};
ghost use Rattle.rows_well.specs.Seen.{seen_of};
ghost use Rattle.play_entries.specs.Entries.{is_source, line_start, line_at, start_level};
ghost use Rattle.play_entries.specs.Signals.{line_data, line_behind};
ghost use Rattle.play_entries.specs.Places.{has_entry, level_at};
ghost use Rattle.play_voice.specs.Voice.{pause_below, rows_below, pause_by, level_by, asks_played, turned_line, silence};
ghost use Rattle.play_voice.specs.Voice.{heard_to, ToldSeen};
ghost use Rattle.play_voice.specs.Voice.{row_at, Standing};

use play_entries::{Mounted, Phase};
use play_levels::{Line, first_level, line_after};
use play_phases::{TonedRow, mic};
use rows::Block;
use rows_well::{Seen, none_seen, seen_steady, seen_well, tones_seen};

// What was seen of a block's first tone rows.
#[derive(Clone, Copy)]
pub struct Heard {
    pub block: u64,
    pub rows: u64,
    pub seen: Seen,
}

// Nothing heard yet.
pub fn unheard() -> Heard
    ensures { result ≡ silence }
{
    Heard {
        block: 0,
        rows: 0,
        seen: none_seen(),
    }
}

// Whether block b's row is a source row; its callers know the row to be lent. Only that word is read.
pub fn is_source(m: &Mounted<'_>, b: u64) -> bool
    requires { b * block.width + block.width ≤ length m.now.blocks.now }
    ensures { result ≡ is_source (row_at m.now.blocks.now b) }
{
    m.row(b).sort == 0
}

// The line at a row's start.
pub fn line_start(r: Block) -> Line
    ensures { result ≡ line_start r }
{
    Line {
        current: r.level == 1,
        played: r.played == 1,
    }
}

// The line before a block's tone row n, or behind the last; a step a tone row.
#[tactic(auto, unfolding(play_entries::specs::Entries::line_at))]
pub fn line_at(x: &TonedRow<'_>, n: u64) -> Line
    requires { n ≤ x.now.row.tones }
    ensures { result ≡ line_at x.now.tones.now x.now.row n }
{
    let mut l = line_start(x.row);
    for i in 0..n {
        l = line_after(x.tone(i), l);
    }
    l
}

// The level of a block's start.
#[tactic(auto, unfolding(play_entries::specs::Entries::start_level))]
pub fn start_level(r: Block) -> bool
    ensures { result ≡ start_level r }
{
    r.sort != 0 && r.level == 1
}

// The tone rows whose line a pause's level needs.
fn pause_below(r: Block) -> u64
    ensures { result ≡ pause_below r }
{
    if r.endless != 1 && r.pause == 0 {
        r.tones
    } else {
        0
    }
}

// The tone rows below a document row's entry whose line its level needs.
#[tactic(auto, unfolding(crate::specs::Voice::rows_below))]
fn rows_below(r: Block, f: Phase) -> u64
    ensures { result ≡ rows_below r f }
{
    match f {
        Phase::Start => 0,
        Phase::Tones { index, .. } => index,
        Phase::Data { .. } => r.tones,
        Phase::Edge => r.tones,
        Phase::Pause => pause_below(r),
    }
}

// The level of a document row's pause, l being the line before it.
fn pause_by(r: Block, l: Line) -> bool
    ensures { result ≡ pause_by r l }
{
    r.endless != 1 && r.pause == 0 && l.current
}

// The level of a document row's entry, l being the line behind the rows below it.
#[tactic(auto, using(play_entries::proofs::Valid::tone_index), unfolding(crate::specs::Voice::level_by))]
fn level_by(x: &TonedRow<'_>, f: Phase, l: Line) -> bool
    requires { has_entry x.now.tones.now x.now.row f ≡ true }
    ensures { result ≡ level_by x.now.tones.now x.now.row f l }
{
    match f {
        Phase::Start => start_level(x.row),
        Phase::Tones {
            index,
            pulse,
            last_half,
        } => last_half != first_level(x.tone(index), l, pulse),
        Phase::Data { last_half, .. } => last_half != l.current,
        Phase::Edge => l.current,
        Phase::Pause => pause_by(x.row, l),
    }
}

// Whether an entry's level asks for the level last played: a tone of begin 1 does.
#[tactic(auto, using(play_entries::proofs::Valid::tone_index), unfolding(crate::specs::Voice::asks_played))]
fn asks_played(x: &TonedRow<'_>, f: Phase) -> bool
    requires { has_entry x.now.tones.now x.now.row f ≡ true }
    ensures { result ≡ asks_played x.now.tones.now x.now.row f }
{
    match f {
        Phase::Tones { index, .. } => x.tone(index).wave / 3 == 1,
        _ => false,
    }
}

// The line behind rows of begin 0, as far as the current level goes: their turns tell it.
fn turned_line(r: Block, s: Seen) -> Line
    ensures { result ≡ turned_line r s }
{
    Line {
        current: (s.turns % 2 == 1) != (r.level == 1),
        played: r.played == 1,
    }
}

// The level of a document row's entry, from what was seen of the rows below it; a step a row only where their turns don't tell it.
#[tactic(auto, using(crate::proofs::Levels::below_most, crate::proofs::Levels::level_by_lem, crate::proofs::Levels::level_turned))]
fn level_seen(x: &TonedRow<'_>, f: Phase, s: Seen) -> bool
    requires r_value { (is_source x.now.row ≡ false) × (has_entry x.now.tones.now x.now.row f ≡ true) }
    requires s_value { s ≡ seen_of x.now.tones.now x.now.row.tone (rows_below x.now.row f) }
    ensures { result ≡ level_at x.now.tones.now x.now.row f }
{
    if seen_steady(s) && !asks_played(x, f) {
        return level_by(x, f, turned_line(x.row, s));
    }
    level_by(x, f, line_at(x, rows_below(x.row, f)))
}

// The first n tone rows of block b, whose row is x's, on from what was heard where that is of them.
#[tactic(auto, using(rows_well::proofs::Gathered::seen_on))]
fn seen_on(x: &TonedRow<'_>, b: u64, n: u64, h: Heard) -> Seen
    requires n_bound { n ≤ x.now.row.tones }
    requires seen_value { h.block ≡ b → h.seen ≡ seen_of x.now.tones.now x.now.row.tone h.rows }
    ensures { result ≡ seen_of x.now.tones.now x.now.row.tone n }
{
    if h.block == b && h.rows <= n {
        tones_seen(x.tones, h.seen, x.row.tone + h.rows, n - h.rows)
    } else {
        tones_seen(x.tones, none_seen(), x.row.tone, n)
    }
}

// The level of an entry of block b, whose row x has is a document row, on from what was heard.
#[tactic(auto, using(crate::proofs::Levels::below_most))]
fn document_level(x: &TonedRow<'_>, b: u64, f: Phase, h: Heard) -> bool
    requires r_value { (is_source x.now.row ≡ false) × (has_entry x.now.tones.now x.now.row f ≡ true) }
    requires seen_value { h.block ≡ b → h.seen ≡ seen_of x.now.tones.now x.now.row.tone h.rows }
    ensures { result ≡ level_at x.now.tones.now x.now.row f }
{
    level_seen(x, f, seen_on(x, b, rows_below(x.row, f), h))
}

// The level of an entry of block b. Our crates alone call it: its row and tone rows are lent, the entry one of it, and what was heard told.
#[tactic(auto, using(play_entries::proofs::Sourced::source_levels))]
pub fn level_in(m: &Mounted<'_>, b: u64, f: Phase, h: Heard) -> bool
    requires standing { Standing m.now.tones.now m.now.blocks.now b f }
    requires told_seen { ToldSeen m.now.tones.now m.now.blocks.now h }
    ensures { result ≡ level_at m.now.tones.now (row_at m.now.blocks.now b) f }
{
    if is_source(m, b) {
        return mic(f);
    }
    let x = TonedRow {
        tones: m.tones,
        row: m.row(b),
    };
    document_level(&x, b, f, h)
}

// The tone rows of block b below an entry, on from what was heard where that is of them; the entry may be none of its row.
pub fn hear_on(x: &TonedRow<'_>, b: u64, f: Phase, h: Heard) -> Heard
    requires { h.block ≡ b → h.seen ≡ seen_of x.now.tones.now x.now.row.tone h.rows }
    ensures { result ≡ heard_to x.now.tones.now x.now.row b (min (rows_below x.now.row f) x.now.row.tones) }
{
    let k = rows_below(x.row, f).min(x.row.tones);
    Heard {
        block: b,
        rows: k,
        seen: seen_on(x, b, k, h),
    }
}

// The tone rows of block b below an entry, heard anew.
#[tactic(auto, unfolding(rows_well::specs::Seen::seen_from))]
pub fn hear(x: &TonedRow<'_>, b: u64, f: Phase) -> Heard
    ensures { result ≡ heard_to x.now.tones.now x.now.row b (min (rows_below x.now.row f) x.now.row.tones) }
{
    hear_on(x, b, f, unheard())
}

// Whether a row's tone rows are well formed, on from those heard.
#[tactic(auto, using(rows_well::proofs::Gathered::seen_wells, rows_well::proofs::Gathered::seen_on))]
pub fn heard_well(x: &TonedRow<'_>, h: Heard) -> bool
    requires rows_bound { h.rows ≤ x.now.row.tones }
    requires seen_value { h.seen ≡ seen_of x.now.tones.now x.now.row.tone h.rows }
    ensures { result ≡ well_tones x.now.tones.now x.now.row.tone x.now.row.tones }
{
    let r = x.row;
    seen_well(tones_seen(x.tones, h.seen, r.tone + h.rows, r.tones - h.rows))
}

// The line behind a document row's data.
#[tactic(auto, unfolding(play_entries::specs::Signals::line_data))]
fn line_data(x: &TonedRow<'_>) -> Line
    ensures { result ≡ line_data x.now.tones.now x.now.row }
{
    let l = line_at(x, x.row.tones);
    if x.row.size == 0 {
        l
    } else {
        Line {
            played: !l.current,
            ..l
        }
    }
}

// The line behind a document row.
#[tactic(auto, unfolding(play_entries::specs::Signals::line_behind))]
pub fn line_behind(x: &TonedRow<'_>) -> Line
    ensures { result ≡ line_behind x.now.tones.now x.now.row }
{
    if x.row.endless != 1 && x.row.pause == 0 {
        line_data(x)
    } else {
        Line {
            current: false,
            played: false,
        }
    }
}
