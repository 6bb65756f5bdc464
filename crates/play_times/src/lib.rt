// The times of tones and data, each a step a tone row and a data byte: what a row sounds, which a load writes in it.
// Lent data and well-formed numbers stay clauses: a load times rows that no table has yet, so a type around them would be one more wrapper a call.
#![tactic(auto)]

ghost use Rattle.std.specs.Prelude.{◌≡◌, true, List, ℕ, ◌+◌, ◌<◌, ◌≤◌, length};
ghost use Rattle.law_pulses.specs.Play.{Level, time};
ghost use Rattle.law_pulses.specs.Runs.{run};
ghost use Rattle.rows.specs.Well.{well_numbers};
ghost use Rattle.play_entries.specs.Entries.{bit_entries, byte_entries, data_of};
ghost use Rattle.play_entries.specs.Counted.{ones_from, bits_time};
ghost use Rattle.play_entries.specs.Figures.{tone_figure, tones_figure, data_figure, Owns};

use play_entries::size_of;
use play_phases::{TonedRow, bits_at, cycle_time, cycles_of};
use rows::{Block, Tone, capacity};
use rows_well::{numbers_well, ranges, tone_well};

// T-states of a tone row; 0 for one that isn't well formed.
#[tactic(auto, using(play_entries::proofs::Bounds::product_most), unfolding(play_entries::specs::Figures::tone_figure))]
pub fn tone_figure(r: Block, t: Tone) -> u64
    ensures value { result ≡ tone_figure r t }
    ensures upper_bound { result ≤ 8589672450 }
{
    if tone_well(t) {
        cycles_of(r, t) * cycle_time(r, t)
    } else {
        0
    }
}

// T-states of a block's tone rows.
#[tactic(auto, using(play_entries::proofs::Figures::from_next, play_entries::proofs::Figures::from_none, play_entries::proofs::Figures::from_most, play_entries::proofs::Figures::owned))]
fn rows_figure(x: &TonedRow<'_>) -> u64
    ensures value { (ts : List Tone) → Owns x.now.tones.now x.now.row ts → result ≡ tones_figure x.now.row ts }
    ensures upper_bound { result ≤ 562932773683200 }
{
    let mut sum = 0;
    for i in 0..x.row.tones {
        sum += tone_figure(x.row, x.tone(i));
    }
    sum
}

// The same of any row: 0 where its tone rows aren't all lent.
pub fn tones_figure(tones: &[u64], r: Block) -> u64
    ensures value { (ts : List Tone) → Owns tones.now r ts → result ≡ tones_figure r ts }
    ensures upper_bound { result ≤ 562932773683200 }
{
    if ranges(r.tone, r.tones, capacity::<Tone>(tones) as u64) {
        rows_figure(&TonedRow { tones, row: r })
    } else {
        0
    }
}

// T-states of n bits, k of them ones, which its callers know to be those of a tape's bytes at most, in a row whose numbers are well formed.
#[tactic(auto, using(play_entries::proofs::Bounds::few))]
fn counted_time(k: u64, n: u64, r: Block) -> u64
    requires k_le_n { (k ≤ n) × (n ≤ 8388608) }
    requires r_value { well_numbers r ≡ true }
    ensures { result ≡ bits_time r k n }
{
    2 * (k * r.one + (n - k) * r.zero)
}

// T-states of the first n bits of a byte, which its callers know to be 1 to 8 in a row whose numbers are well formed.
#[tactic(auto, using(play_entries::proofs::Runs::few_ones, play_entries::proofs::Runs::bits_time_lem))]
pub fn bits_time(v: u8, n: u64, r: Block) -> u64
    requires n_nonzero { (0 < n) × (n ≤ 8) }
    requires r_value { well_numbers r ≡ true }
    ensures { (b pos : ℕ) (c : Level) → result ≡ time (run (bit_entries b r c pos v) 0 n) }
{
    counted_time((v >> (8 - n)).count_ones() as u64, n, r)
}

// T-states of a block's data byte at pos, which its callers know to lie in the tape, in a row whose numbers are well formed.
#[tactic(auto, using(play_entries::proofs::Bounds::bits_most, play_entries::proofs::Bounds::bits_some), unfolding(play_entries::specs::Entries::byte_of))]
pub fn byte_time(tape: &[u8], r: Block, pos: u64) -> u64
    requires size_in_bounds { (r.start + r.size ≤ length tape.now) × (pos < r.size) }
    requires r_value { well_numbers r ≡ true }
    ensures { (b : ℕ) (c : Level) → result ≡ time (byte_entries tape.now b r c pos) }
{
    let at = (r.start + pos) as usize;
    bits_time(tape[at], bits_at(r, pos), r)
}

// One-bits of n bytes of a tape from a place on, which its callers know to lie in it and to be within its limit.
#[tactic(auto, using(play_entries::proofs::Counted::ones_most), unfolding(play_entries::specs::Counted::ones_from))]
fn ones(tape: &[u8], from: u64, n: u64) -> u32
    requires { (from + n ≤ length tape.now) × (n ≤ 1048576) }
    ensures { result ≡ ones_from tape.now from n }
{
    let mut sum = 0;
    for v in &tape[from as usize..(from + n) as usize] {
        sum += v.count_ones();
    }
    sum
}

// T-states of a block's data, which its callers know to lie in the tape and to be within its limit, in a row whose numbers are well formed.
#[tactic(auto, using(play_entries::proofs::Counted::ones_most, play_entries::proofs::Counted::data_counted, play_entries::proofs::Counted::data_none))]
fn data_time(tape: &[u8], r: Block) -> u64
    requires size_in_bounds { (r.start + r.size ≤ length tape.now) × (r.size ≤ 1048576) }
    requires r_value { well_numbers r ≡ true }
    ensures { (b : ℕ) (c : Level) → result ≡ time (data_of tape.now b r c) }
{
    if r.size == 0 {
        return 0;
    }
    let last = r.size - 1;
    counted_time(ones(tape, r.start, last) as u64, 8 * last, r) + byte_time(tape, r, last)
}

// The same of any row: 0 where its data aren't all in the tape, or its numbers aren't well formed.
#[tactic(auto, using(play_entries::proofs::Figures::data_outside, play_entries::proofs::Figures::data_ill))]
pub fn data_figure(tape: &[u8], r: Block) -> u64
    ensures value { result ≡ data_figure tape.now r }
    ensures upper_bound { result ≤ 1099494850560 }
{
    if ranges(r.start, r.size, size_of(tape)) && numbers_well(r) {
        data_time(tape, r)
    } else {
        0
    }
}
