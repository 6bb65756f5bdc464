// How far one step of a walk goes inside a block: behind an entry, a run of whole cycles, a data byte.
#![tactic(auto)]

ghost use Rattle.std.specs.Prelude.{◌≡◌, true, List, ℕ, ◌+◌, ◌<◌, ◌≤◌, length};
ghost use Rattle.rows.specs.Well.{well_tones, well_numbers, well_block};
ghost use Rattle.play_entries.specs.Entries.{cycles_of, tone_at, bits_at};
ghost use Rattle.play_entries.specs.Places.{has_entry};
ghost use Rattle.play_steps.specs.Steps.{end_from, data_from, bit_from, tone_from, cycle_from, second_from, step_to, step_out};
ghost use Rattle.play_steps.specs.Steps.{cycles_fitting, one_step, take_cycles, take_byte, take_of};
ghost use Rattle.play_entries.specs.Mounted.{tape_size};
ghost use Rattle.play_entries.specs.declared.Phase.TheVariants.{Tones, Data};

use play_entries::Phase;
use play_phases::{TonedRow, bits_at, cycle_pulses, cycle_time, cycles_of, is_edged, is_single};
use play_times::byte_time;
use rows::{Block, Tone};

// How a turn of a walk goes on: to this phase, or over the block; its T-states and entries.
#[derive(Clone, Copy)]
pub struct Step {
    pub phase: Option<Phase>,
    pub time: u64,
    pub passed: u64,
}

// The first entry behind the data.
#[tactic(auto, unfolding(crate::specs::Steps::end_from))]
fn end_from(r: Block) -> Phase
    ensures { result ≡ end_from r }
{
    if is_edged(r) {
        Phase::Edge
    } else {
        Phase::Pause
    }
}

// The first entry from data byte pos on.
#[tactic(auto, unfolding(crate::specs::Steps::data_from))]
pub fn data_from(r: Block, pos: u64) -> Phase
    ensures { result ≡ data_from r pos }
{
    if pos < r.size {
        Phase::Data {
            pos,
            bit: 0,
            last_half: false,
        }
    } else {
        end_from(r)
    }
}

// The first entry behind bit k of data byte pos, which its callers know to be there.
#[tactic(auto, using(play_entries::proofs::Bounds::bits_any), unfolding(crate::specs::Steps::bit_from))]
fn bit_past(r: Block, pos: u64, k: u64) -> Phase
    requires { (pos < r.size) × (k < bits_at r pos) }
    ensures { result ≡ bit_from r pos (k + 1) }
{
    if k + 1 < bits_at(r, pos) {
        Phase::Data {
            pos,
            bit: k + 1,
            last_half: false,
        }
    } else {
        data_from(r, pos + 1)
    }
}

// The first entry from tone row i on; a step a tone row without a pulse.
#[tactic(auto, using(crate::proofs::Facts::tone_here, crate::proofs::Facts::tone_past, crate::proofs::Facts::tone_over))]
fn tone_from(x: &TonedRow<'_>, i: u64) -> Phase
    requires { i ≤ x.now.row.tones }
    ensures { result ≡ tone_from x.now.tones.now x.now.row i }
{
    for index in i..x.row.tones {
        if 0 < cycles_of(x.row, x.tone(index)) {
            return Phase::Tones {
                index,
                pulse: 0,
                last_half: false,
            };
        }
    }
    data_from(x.row, 0)
}

// The first entry from cycle p of tone row i, which is t, on. Our crates alone call it: the row has that tone row.
#[tactic(auto, unfolding(crate::specs::Steps::cycle_from))]
pub fn cycle_from(x: &TonedRow<'_>, t: Tone, i: u64, p: u64) -> Phase
    requires { i < x.now.row.tones }
    ensures { result ≡ cycle_from x.now.tones.now t x.now.row i p }
{
    if p < cycles_of(x.row, t) {
        Phase::Tones {
            index: i,
            pulse: p,
            last_half: false,
        }
    } else {
        tone_from(x, i + 1)
    }
}

// The first entry behind the first pulse of repetition p of tone row i. Our crates alone call it: the row has that pulse.
#[tactic(auto, using(play_entries::proofs::Bounds::cycles_most), unfolding(crate::specs::Steps::second_from))]
fn second_from(x: &TonedRow<'_>, t: Tone, i: u64, p: u64) -> Phase
    requires i_bound { i < x.now.row.tones }
    requires p_bound { p < cycles_of x.now.row t }
    ensures { result ≡ second_from x.now.tones.now t x.now.row i p }
{
    if is_single(x.row, t) {
        cycle_from(x, t, i, p + 1)
    } else {
        Phase::Tones {
            index: i,
            pulse: p,
            last_half: true,
        }
    }
}

// Behind n entries of t T-states, to a phase of the same block.
pub fn step_to(f: Phase, t: u64, n: u64) -> Step
    ensures { result ≡ step_to f t n }
{
    Step {
        phase: Some(f),
        time: t,
        passed: n,
    }
}

// Behind the block's last entry, of t T-states.
fn step_out(t: u64) -> Step
    ensures { result ≡ step_out t }
{
    Step {
        phase: None,
        time: t,
        passed: 1,
    }
}

// Behind a half of cycle p of tone row i, which its callers know to be there.
#[tactic(auto, using(play_entries::proofs::Bounds::cycles_most), unfolding(crate::specs::Steps::one_step))]
fn tone_step(x: &TonedRow<'_>, i: u64, p: u64, last: bool, t: u64) -> Step
    requires i_bound { i < x.now.row.tones }
    requires p_bound { p < cycles_of x.now.row (tone_at x.now.tones.now x.now.row i) }
    ensures { result ≡ one_step x.now.tones.now x.now.row (Tones i p last) t }
{
    let tone = x.tone(i);
    if last {
        step_to(cycle_from(x, tone, i, p + 1), t, 1)
    } else {
        step_to(second_from(x, tone, i, p), t, 1)
    }
}

// Behind a half of bit k of data byte pos, which its callers know to be there.
#[tactic(auto, unfolding(crate::specs::Steps::one_step))]
fn bit_step(x: &TonedRow<'_>, pos: u64, k: u64, last: bool, t: u64) -> Step
    requires { (pos < x.now.row.size) × (k < bits_at x.now.row pos) }
    ensures { result ≡ one_step x.now.tones.now x.now.row (Data pos k last) t }
{
    if last {
        return step_to(bit_past(x.row, pos, k), t, 1);
    }
    let second = Phase::Data {
        pos,
        bit: k,
        last_half: true,
    };
    step_to(second, t, 1)
}

// Behind one entry. Our crates alone call it: it is there.
#[tactic(auto, using(play_entries::proofs::Valid::tone_index, play_entries::proofs::Valid::cycle_index, play_entries::proofs::Valid::byte_index, play_entries::proofs::Valid::bit_index), unfolding(crate::specs::Steps::one_step))]
pub fn one_step(x: &TonedRow<'_>, f: Phase, t: u64) -> Step
    requires { has_entry x.now.tones.now x.now.row f ≡ true }
    ensures { result ≡ one_step x.now.tones.now x.now.row f t }
{
    match f {
        Phase::Start => step_to(tone_from(x, 0), 0, 1),
        Phase::Tones {
            index,
            pulse,
            last_half,
        } => tone_step(x, index, pulse, last_half, t),
        Phase::Data {
            pos,
            bit,
            last_half,
        } => bit_step(x, pos, bit, last_half, t),
        Phase::Edge => step_to(Phase::Pause, t, 1),
        Phase::Pause => step_out(t),
    }
}

// Of m cycles of c T-states each, how many last less than d.
#[tactic(auto, unfolding(crate::specs::Steps::cycles_fitting))]
fn fits(c: u64, m: u64, d: u64) -> u64
    requires { 0 < d }
    ensures { result ≡ cycles_fitting c m d }
{
    if c == 0 { m } else { m.min((d - 1) / c) }
}

// From the first half of a cycle, full: the cycles that last less than d, or this half; its callers know the tone rows to be well formed.
fn take_cycles(x: &TonedRow<'_>, i: u64, p: u64, t: u64, d: u64) -> Step
    requires row_value { well_tones x.now.tones.now x.now.row.tone x.now.row.tones ≡ true }
    requires i_lt_tones { (i < x.now.row.tones) × (p < cycles_of x.now.row (tone_at x.now.tones.now x.now.row i)) }
    requires d_nonzero { 0 < d }
    ensures { result ≡ take_cycles x.now.tones.now x.now.row i p t d }
{
    let tone = x.tone(i);
    let c = cycle_time(x.row, tone);
    let k = fits(c, cycles_of(x.row, tone) - p, d);
    if 0 < k {
        let m = cycle_pulses(x.row, tone);
        return step_to(cycle_from(x, tone, i, p + k), k * c, k * m);
    }
    tone_step(x, i, p, false, t)
}

// From the first half of a byte's first bit, full: the byte if it lasts less than d, or this half; its callers know the byte to be lent.
#[tactic(auto, using(play_entries::proofs::Bounds::bits_most, play_entries::proofs::Bounds::bits_some), unfolding(crate::specs::Steps::take_byte, crate::specs::Steps::byte_step, crate::specs::Steps::byte_time))]
fn take_byte(tape: &[u8], x: &TonedRow<'_>, pos: u64, t: u64, d: u64) -> Step
    requires size_in_bounds { (x.now.row.start + x.now.row.size ≤ length tape.now) × (pos < x.now.row.size) }
    requires r_value { well_numbers x.now.row ≡ true }
    ensures { result ≡ take_byte tape.now x.now.tones.now x.now.row pos t d }
{
    let time = byte_time(tape, x.row, pos);
    if time < d {
        return step_to(data_from(x.row, pos + 1), time, bits_at(x.row, pos) * 2);
    }
    bit_step(x, pos, 0, false, t)
}

// A turn in the tones, from a half that its callers know to be there; its tone rows are well formed.
#[tactic(auto, unfolding(crate::specs::Steps::take_of))]
fn take_tone(x: &TonedRow<'_>, i: u64, p: u64, last: bool, full: bool, t: u64, d: u64) -> Step
    requires row_value { well_tones x.now.tones.now x.now.row.tone x.now.row.tones ≡ true }
    requires i_lt_tones { (i < x.now.row.tones) × (p < cycles_of x.now.row (tone_at x.now.tones.now x.now.row i)) }
    requires d_nonzero { 0 < d }
    ensures { (tape : List ℕ) → result ≡ take_of tape x.now.tones.now x.now.row (Tones i p last) full t d }
{
    if full && !last {
        take_cycles(x, i, p, t, d)
    } else {
        tone_step(x, i, p, last, t)
    }
}

// A turn in the data, from a half that its callers know to be there; its byte is lent.
#[tactic(auto, unfolding(crate::specs::Steps::take_of))]
fn take_bit(
    tape: &[u8],
    x: &TonedRow<'_>,
    pos: u64,
    k: u64,
    last: bool,
    full: bool,
    t: u64,
    d: u64,
) -> Step
    requires size_in_bounds { x.now.row.start + x.now.row.size ≤ length tape.now }
    requires pos_lt_size { (pos < x.now.row.size) × (k < bits_at x.now.row pos) }
    requires r_value { well_numbers x.now.row ≡ true }
    ensures { result ≡ take_of tape.now x.now.tones.now x.now.row (Data pos k last) full t d }
{
    if full && !last && k == 0 {
        take_byte(tape, x, pos, t, d)
    } else {
        bit_step(x, pos, k, last, t)
    }
}

// A turn at another entry: a function of its own, so that phase and answer stand in memory for the call in these arms of `take` alone.
fn take_entry(x: &TonedRow<'_>, f: Phase, t: u64) -> Step
    requires { has_entry x.now.tones.now x.now.row f ≡ true }
    ensures { result ≡ one_step x.now.tones.now x.now.row f t }
{
    one_step(x, f, t)
}

// One turn of the measured walk. Our crates alone call it: from an entry that is there, in a well-formed row.
#[tactic(auto, using(play_entries::proofs::Valid::tone_index, play_entries::proofs::Valid::cycle_index, play_entries::proofs::Valid::byte_index, play_entries::proofs::Valid::bit_index, play_entries::proofs::Lent::row_lent), unfolding(crate::specs::Steps::take_of))]
pub fn take(tape: &[u8], x: &TonedRow<'_>, f: Phase, full: bool, t: u64, d: u64) -> Step
    requires r_value { well_block (tape_size tape.now) x.now.tones.now x.now.row ≡ true }
    requires f_value { has_entry x.now.tones.now x.now.row f ≡ true }
    requires d_nonzero { 0 < d }
    ensures { result ≡ take_of tape.now x.now.tones.now x.now.row f full t d }
{
    match f {
        Phase::Tones {
            index,
            pulse,
            last_half,
        } => take_tone(x, index, pulse, last_half, full, t, d),
        Phase::Data {
            pos,
            bit,
            last_half,
        } => take_bit(tape, x, pos, bit, last_half, full, t, d),
        Phase::Start | Phase::Edge | Phase::Pause => take_entry(x, f, t),
    }
}
