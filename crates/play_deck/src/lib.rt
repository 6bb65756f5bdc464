// The players of a mounted tape: the measured one and the source's.
#![tactic(auto)]

ghost use Rattle.std.specs.Prelude.{◌≡◌, true, ℕ, ◌&&◌, ◌<◌, Result};
ghost use Rattle.rows_well.specs.Words.{well_words};
ghost use Rattle.play_entries.specs.Places.{Tape, has_entry, length_at, level_in, remains};
ghost use Rattle.play_entries.specs.Mounted.{mounted_tape, tape_size};
ghost use Rattle.play_voice.specs.Voice.{row_at, ToldSeen};
ghost use Rattle.play_walk.specs.Heads.{walk_from, GoesOn, Landed, Lands};
ghost use Rattle.play_deck.specs.Assay.{past_found, source_found, heard_on_way, ready_row, Assayed, Found, Lending, Sounded};
ghost use Rattle.play_deck.specs.Inside.{ends_inside, less_by, in_place};
ghost use Rattle.play_deck.specs.Deck.{at_start, all_fine, judged, source_from, answered_by, play_measured, play_source};
ghost use Rattle.play_deck.specs.Players.{measured_by, source_by};
ghost use Rattle.play_deck.specs.Calls.{position_in};
ghost use Rattle.play_walk.specs.declared.Position.{Position};
ghost use Rattle.play_walk.specs.declared.Reached.{Reached};
ghost use Rattle.play_walk.specs.declared.Fault.{Fault};

use play_ahead::ran_ahead;
use play_entries::{Duration, Mounted, Phase};
use play_phases::{TonedRow, may_remain, mic};
use play_voice::{Heard, hear, hear_on, heard_well, is_source, level_in, unheard};
use play_walk::{Fault, Position, Reached, Stand, walk};
use rows::Block;
use rows_well::{tones_well, words_well};

// Whether a position is a start with 0 left.
fn at_start(pos: Position) -> bool
    ensures { result ≡ at_start pos }
{
    matches!(
        pos,
        Position {
            phase: Phase::Start,
            left: Duration::T(0),
            ..
        }
    )
}

// Whether so much may be left of a block's entry; its callers know the row to be well formed but for its tone rows.
#[tactic(auto, using(crate::proofs::Assays::words_bytes, crate::proofs::Assays::words_rows, crate::proofs::Assays::words_numbers))]
fn has_left(tape: &[u8], x: &TonedRow<'_>, f: Phase, left: Duration) -> bool
    requires { well_words (tape_size tape.now) x.now.tones.now x.now.row ≡ true }
    ensures { result
        ≡ (has_entry x.now.tones.now x.now.row f
        && remains left (length_at tape.now x.now.tones.now x.now.row f)) }
{
    x.has_entry(f) && may_remain(left, x.length_at(tape, f))
}

// Whether a row is well formed; of a document row's tone rows it doesn't tell, which are gone through later.
#[tactic(auto, using(rows_well::proofs::WordsLaws::words_tones, crate::proofs::Assays::words_table), unfolding(crate::specs::Assay::ready_row))]
fn row_ready(m: &Mounted<'_>, r: Block) -> bool
    ensures { result ≡ ready_row (tape_size m.now.tape.now) m.now.tones.now r }
{
    words_well(m.size(), m.tones, r) && (r.sort != 0 || tones_well(m.tones, r.tone, r.tones))
}

// What a fine position comes to: the level there, and what was heard on the way.
#[derive(Clone, Copy)]
pub struct Finding {
    pub level: bool,
    pub heard: Heard,
}

// The check of a position at or past the count.
fn assay_past(pos: Position) -> Result<Finding, Fault>
    ensures { result ≡ past_found (at_start pos) }
{
    if !at_start(pos) {
        return Err(Fault::NotValid);
    }
    Ok(Finding {
        level: false,
        heard: unheard(),
    })
}

// A position in block b, a document row, by one pass over its tone rows; its callers know the row to be well formed but for them.
fn assay_document(m: &Mounted<'_>, b: u64, f: Phase, has: bool) -> Result<Finding, Fault>
    requires lending { Lending m.now.tones.now m.now.blocks.now b }
    requires f_value { has ≡ true → has_entry m.now.tones.now (row_at m.now.blocks.now b) f ≡ true }
    ensures { Sounded m.now.tones.now m.now.blocks.now b f has result }
{
    let x = TonedRow {
        tones: m.tones,
        row: m.row(b),
    };
    let h = hear(&x, b, f);
    if !heard_well(&x, h) {
        return Err(Fault::NotFormed);
    }
    if !has {
        return Err(Fault::NotValid);
    }
    Ok(Finding {
        level: level_in(m, b, f, h),
        heard: h,
    })
}

// A position in a source row that is well formed, by whether so much may be left of its entry.
fn assay_source(f: Phase, has: bool) -> Result<Finding, Fault>
    ensures { result ≡ source_found f has }
{
    if !has {
        return Err(Fault::NotValid);
    }
    Ok(Finding {
        level: mic(f),
        heard: unheard(),
    })
}

// The checks of a position, in the order of rule 37, and the level there: a document row's tone rows are gone through once for both.
pub fn assay(m: &Mounted<'_>, pos: Position) -> Result<Finding, Fault>
    ensures { Assayed (mounted_tape m.now) pos result }
{
    if m.is_overfull() {
        return Err(Fault::NotFormed);
    }
    let b = pos.block;
    if m.count <= b {
        return assay_past(pos);
    }
    if !row_ready(m, m.row(b)) {
        return Err(Fault::NotFormed);
    }
    let x = TonedRow {
        tones: m.tones,
        row: m.row(b),
    };
    let has = has_left(m.tape, &x, pos.phase, pos.left);
    if is_source(m, b) {
        return assay_source(pos.phase, has);
    }
    assay_document(m, b, pos.phase, has)
}

// The checks of a position, in the order of rule 37.
pub fn judge(m: &Mounted<'_>, pos: Position) -> Result<(), Fault>
    ensures { result ≡ judged (mounted_tape m.now) pos }
{
    assay(m, pos)?;
    Ok(())
}

// Whether a call of n ends inside an entry of which so much is left.
#[tactic(auto, unfolding(crate::specs::Inside::ends_inside))]
pub fn ends_inside(left: Duration, n: u64) -> bool
    ensures { result ≡ ends_inside left n }
{
    matches!(left, Duration::T(t) if n < t)
}

// What is left of an entry in which a call of n ends.
#[tactic(auto, unfolding(crate::specs::Inside::ends_inside, crate::specs::Inside::less_by))]
fn less(left: Duration, n: u64) -> Duration
    requires { ends_inside left n ≡ true }
    ensures { result ≡ less_by left n }
{
    match left {
        Duration::T(t) => Duration::T(t - n),
        Duration::Endless => left,
    }
}

// A call of n that ends inside the entry where the head stands, of this level: nothing is passed.
#[tactic(auto, unfolding(crate::specs::Inside::ends_inside, crate::specs::Inside::less_by))]
fn stand_inside(pos: Position, n: u64, level: bool) -> Reached
    requires { ends_inside pos.left n ≡ true }
    ensures { (w : Tape) → level ≡ level_in w pos.block pos.phase → Ok result ≡ in_place w pos n }
{
    let position = Position {
        left: less(pos.left, n),
        ..pos
    };
    Reached::here(position, 0, level)
}

// A player: what it answers to a call of n, and what a call of 1 or more from a fine position comes to, which is a measured walk.
pub trait Player {
    ghost plays: { Tape → Position → ℕ → Result Reached Fault };

    ghost walks: { Tape → Position → ℕ → Result Reached Fault };

    // How many T-states that walk takes; its callers know the position to be fine.
    fn spends(m: &Mounted<'_>, pos: Position, n: u32) -> u64
        requires fine { judged (mounted_tape m.now) pos ≡ all_fine }
        requires some { 0 < n }
        ensures walks_value { walks (mounted_tape m.now) pos n ≡ walk_from (mounted_tape m.now) pos result }
        ensures nonzero { 0 < result };

    ghost by_walks: { (w : Tape) (q : Position) (n : ℕ) → plays w q n ≡ answered_by walks w q n };
}

// The measured player charges every pulse.
pub struct Measured;

impl Player for Measured {
    ghost plays = { play_measured };

    ghost walks = { walk_from };

    ghost by_walks = { measured_by };

    fn spends(_m: &Mounted<'_>, _pos: Position, n: u32) -> u64 {
        u64::from(n)
    }
}

// The source's play drops short entries uncharged, as the Rust does.
pub struct Source;

impl Player for Source {
    ghost plays = { play_source };

    ghost walks = { source_from };

    ghost by_walks = { source_by };

    fn spends(m: &Mounted<'_>, pos: Position, n: u32) -> u64 {
        if m.count <= pos.block {
            return n as u64;
        }
        let more = ran_ahead(m, pos, n as u64);
        n as u64 + more
    }
}

// A player's call of n T-states from a position, by what it came to; our crates alone call it.
pub fn call_by<P: Player>(
    m: &Mounted<'_>,
    pos: Position,
    n: u32,
    a: Result<Finding, Fault>,
) -> Result<Reached, Fault>
    requires { Assayed (mounted_tape m.now) pos a }
    ensures value { result ≡ P.plays (mounted_tape m.now) pos n }
    ensures lands { Lands (mounted_tape m.now) result }
{
    let here = a?;
    if n == 0 {
        return Ok(Reached::here(pos, 0, here.level));
    }
    let d = P::spends(m, pos, n);
    if m.count <= pos.block {
        return Ok(Reached::end(m.count, 0));
    }
    if ends_inside(pos.left, d) {
        return Ok(stand_inside(pos, d, here.level));
    }
    walk(m, pos, d, here.heard)
}

// The measured player: a call of n T-states from a position.
pub fn play_measured(m: &Mounted<'_>, pos: Position, n: u32) -> Result<Reached, Fault>
    ensures { result ≡ play_measured (mounted_tape m.now) pos n }
{
    call_by::<Measured>(m, pos, n, assay(m, pos))
}

// The source's play: a call of n T-states from a position.
pub fn play(m: &Mounted<'_>, pos: Position, n: u32) -> Result<Reached, Fault>
    ensures { result ≡ play_source (mounted_tape m.now) pos n }
{
    call_by::<Source>(m, pos, n, assay(m, pos))
}

// What the position of a stand inside a block comes to, known to be fine; on from what was heard.
fn assay_inside(m: &Mounted<'_>, s: Stand, h: Heard) -> Finding
    requires goes_on { GoesOn (mounted_tape m.now) s }
    requires told_seen { ToldSeen m.now.tones.now m.now.blocks.now h }
    ensures { Found (mounted_tape m.now) s.position result }
{
    let b = s.position.block;
    let level = s.level;
    if is_source(m, b) {
        return Finding { level, heard: h };
    }
    let x = TonedRow {
        tones: m.tones,
        row: m.row(b),
    };
    Finding {
        level,
        heard: hear_on(&x, b, s.position.phase, h),
    }
}

// What the position of a stand comes to: at a block's start its row is judged.
fn assay_stand(m: &Mounted<'_>, s: Stand, h: Heard) -> Result<Finding, Fault>
    requires landed { Landed (mounted_tape m.now) s }
    requires told_seen { ToldSeen m.now.tones.now m.now.blocks.now h }
    ensures { Assayed (mounted_tape m.now) s.position result }
{
    if s.position.phase == Phase::Start {
        return assay(m, s.position);
    }
    Ok(assay_inside(m, s, h))
}

// What was heard on the way to a position.
fn heard_on_way(a: Result<Finding, Fault>) -> Heard
    ensures { result ≡ heard_on_way a }
{
    match a {
        Ok(here) => here.heard,
        Err(_) => unheard(),
    }
}

// What the position comes to where an answer leaves the head: nothing is judged twice. Our crates alone call it.
pub fn assay_after(
    m: &Mounted<'_>,
    pos: Position,
    a: Result<Finding, Fault>,
    r: Result<Reached, Fault>,
) -> Result<Finding, Fault>
    requires assayed { Assayed (mounted_tape m.now) pos a }
    requires lands { Lands (mounted_tape m.now) r }
    ensures { Assayed (mounted_tape m.now) (position_in pos r) result }
{
    match r {
        Ok(to) => assay_stand(m, to.stand, heard_on_way(a)),
        Err(_) => a,
    }
}

// The mounted head.
#[derive(Clone, Copy, PartialEq, Eq)]
pub struct Head {
    pub position: Position,
}

// A mounted head after a call, and the call's answer.
#[derive(Clone, Copy, PartialEq, Eq)]
pub struct Played {
    pub head: Head,
    pub answer: Result<Reached, Fault>,
}
