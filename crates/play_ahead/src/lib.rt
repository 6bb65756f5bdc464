// What the source's play drops as it walks.
#![tactic(auto)]

ghost use Rattle.std.specs.Prelude.{◌≡◌, true, false};
ghost use Rattle.rows.specs.Well.{well_block};
ghost use Rattle.play_entries.specs.Places.{has_entry};
ghost use Rattle.play_ahead.specs.Drops.{drop_one, drop_entry, second_time, drop_of};
ghost use Rattle.play_entries.specs.Mounted.{tape_size, mounted_tape};
ghost use Rattle.play_walk.specs.Heads.{Walkable, dropped_from};
ghost use Rattle.play_entries.specs.declared.Phase.TheVariants.{Tones, Data};

use play_entries::{Duration, Mounted, Phase};
use play_phases::{TonedRow, bits_at, cycle_pulses, cycle_time, cycles_of, is_single};
use play_steps::{Step, cycle_from, data_from, one_step, step_to};
use play_times::byte_time;
use play_walk::Position;
use rows::{Block, Tone};

// Behind one entry of this length, if it is no longer than d; its callers know it to be there in the row.
#[tactic(auto, unfolding(crate::specs::Drops::drop_one))]
fn drop_one(x: &TonedRow<'_>, f: Phase, length: Duration, d: u64) -> Option<Step>
    requires { has_entry x.now.tones.now x.now.row f ≡ true }
    ensures { result ≡ drop_one x.now.tones.now x.now.row f length d }
{
    match length {
        Duration::T(t) if t <= d => Some(one_step(x, f, t)),
        _ => None,
    }
}

// Behind one full entry, if it is no longer than d.
#[tactic(auto, using(crate::proofs::Cycles::row_bytes, crate::proofs::Cycles::row_numbers))]
fn drop_entry(tape: &[u8], x: &TonedRow<'_>, f: Phase, d: u64) -> Option<Step>
    requires r_value { well_block (tape_size tape.now) x.now.tones.now x.now.row ≡ true }
    requires f_value { has_entry x.now.tones.now x.now.row f ≡ true }
    ensures { result ≡ drop_entry tape.now x.now.tones.now x.now.row f d }
{
    drop_one(x, f, x.length_at(tape, f), d)
}

// T-states of a repetition's second pulse, 0 where it has none.
fn second_time(r: Block, t: Tone) -> u64
    ensures { result ≡ second_time r t }
{
    if is_single(r, t) { 0 } else { t.len2 }
}

// The rest of a tone row's cycles if neither half is longer than d, or this half if it isn't.
#[tactic(auto, using(play_entries::proofs::Valid::tone_index, crate::proofs::Cycles::tone_well, crate::proofs::Cycles::cycles_left, crate::proofs::Cycles::rest_time, crate::proofs::Cycles::rest_pulses), unfolding(crate::specs::Drops::drop_of, play_steps::specs::Steps::cycles_step))]
fn drop_cycles(tape: &[u8], x: &TonedRow<'_>, i: u64, p: u64, d: u64) -> Option<Step>
    requires r_value { well_block (tape_size tape.now) x.now.tones.now x.now.row ≡ true }
    requires false_value { has_entry x.now.tones.now x.now.row (Tones i p false) ≡ true }
    ensures { result ≡ drop_of tape.now x.now.tones.now x.now.row (Tones i p false) d }
{
    let r = x.row;
    let t = x.tone(i);
    let f = Phase::Tones {
        index: i,
        pulse: p,
        last_half: false,
    };
    if d < t.len1.max(second_time(r, t)) {
        return drop_entry(tape, x, f, d);
    }
    let k = cycles_of(r, t) - p;
    let c = cycle_time(r, t);
    let m = cycle_pulses(r, t);
    Some(step_to(cycle_from(x, t, i, p + k), k * c, k * m))
}

// A data byte if no half of a bit can be longer than d, or its first half if it isn't.
#[tactic(auto, using(crate::proofs::Cycles::row_bytes, crate::proofs::Cycles::row_few, crate::proofs::Cycles::row_numbers, play_entries::proofs::Valid::byte_index, play_entries::proofs::Bounds::bits_most), unfolding(crate::specs::Drops::drop_of, play_steps::specs::Steps::byte_step, play_steps::specs::Steps::byte_time))]
fn drop_byte(tape: &[u8], x: &TonedRow<'_>, pos: u64, d: u64) -> Option<Step>
    requires r_value { well_block (tape_size tape.now) x.now.tones.now x.now.row ≡ true }
    requires false_value { has_entry x.now.tones.now x.now.row (Data pos 0 false) ≡ true }
    ensures { result ≡ drop_of tape.now x.now.tones.now x.now.row (Data pos 0 false) d }
{
    let r = x.row;
    let f = Phase::Data {
        pos,
        bit: 0,
        last_half: false,
    };
    if d < r.zero.max(r.one) {
        return drop_entry(tape, x, f, d);
    }
    let time = byte_time(tape, r, pos);
    Some(step_to(data_from(r, pos + 1), time, bits_at(r, pos) * 2))
}

// One turn of the source's walk, from a full entry that its callers know to be there in a well-formed row.
#[tactic(auto, unfolding(crate::specs::Drops::drop_of))]
fn drop(tape: &[u8], x: &TonedRow<'_>, f: Phase, d: u64) -> Option<Step>
    requires r_value { well_block (tape_size tape.now) x.now.tones.now x.now.row ≡ true }
    requires f_value { has_entry x.now.tones.now x.now.row f ≡ true }
    ensures { result ≡ drop_of tape.now x.now.tones.now x.now.row f d }
{
    match f {
        Phase::Tones {
            index,
            pulse,
            last_half: false,
        } => drop_cycles(tape, x, index, pulse, d),
        Phase::Data {
            pos,
            bit: 0,
            last_half: false,
        } => drop_byte(tape, x, pos, d),
        _ => drop_entry(tape, x, f, d),
    }
}

// What the source's play drops in a call of n from a position that its callers know to be valid, below the count, in a well-formed row.
// No `for` over the blocks, as in `walk`.
pub fn ran_ahead(m: &Mounted<'_>, pos: Position, n: u64) -> u64
    requires { Walkable (mounted_tape m.now) pos }
    ensures { result ≡ dropped_from (mounted_tape m.now) pos n }
{
    let Duration::T(t) = pos.left else {
        return 0;
    };
    if n < t {
        return 0;
    }
    let d = n - t;
    let mut block = pos.block;
    let own = TonedRow {
        tones: m.tones,
        row: m.row(block),
    };
    let first = one_step(&own, pos.phase, t);
    let mut phase = first.phase;
    let mut sum: u64 = 0;
    'blocks: loop {
        let x = TonedRow {
            tones: m.tones,
            row: m.row(block),
        };
        while let Some(f) = phase {
            let Some(s) = drop(m.tape, &x, f, d) else {
                break 'blocks sum;
            };
            sum += s.time;
            phase = s.phase;
        }
        block += 1;
        if block == m.count || !m.row_well(block) {
            break 'blocks sum;
        }
        phase = Some(Phase::Start);
    }
}
