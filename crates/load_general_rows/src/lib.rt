// What a generalised piece (19) comes to, its rows put in the tone table. The C host lends that table, and the load's state counts its rows:
// so table and count are passed side by side.
#![tactic(auto)]

ghost use Rattle.std.specs.Prelude.{◌≡◌, ℕ, true, Option, Some, is_some, ◌&&◌, ◌-◌, ◌/◌, ◌≤◌, ◌<◌, length, leb, ltb};
ghost use Rattle.rows.specs.declared.Tone.{Tone};
ghost use Rattle.rows.specs.Table.{put_all, capacity_of};
ghost use Rattle.rows.specs.Rows.{tone, tone_most};
ghost use Rattle.load_general.specs.General.{entry_row, single_row, pair_row, rows_from, pilot_of, equal_halves, ordinary, used_bits};
ghost use Rattle.load_general.specs.General.{data_part, with_data, with_pilot, general_of};
ghost use Rattle.load_general.specs.Made.{judged_of, is_tones, part_tones, MadeDone};
ghost use Rattle.load_general.specs.Held.{Held, Kept, symbol_of};

use cut_grammar::GeneralizedData;
use load_general::{Made, NoRows, Piece19, SYMBOLS, pairs_of, plain_tone, read_alphabet, symbol};
use load_general_data::data_part;
use load_general_pilot::{entry_row, pilot_part};
use rows::{Tone, capacity, put_row};

// Whether both halves of a symbol are equal.
#[tactic(auto, unfolding(load_general::specs::General::equal_halves, load_general::specs::Held::symbol_of))]
fn equal_halves(y: [u16; 2]) -> bool
    ensures { result ≡ equal_halves (symbol_of y) }
{
    y[0] == y[1]
}

// Whether the data part is an ordinary data block.
#[tactic(auto, using(load_general::proofs::Symbols::two_inside, load_general::proofs::Symbols::symbol_back), unfolding(load_general::specs::General::ordinary))]
fn ordinary(p: &Piece19) -> bool
    ensures { result ≡ (ltb 0 p.now.g.totd && ordinary p.now.tape.now p.now.g) }
{
    0 < p.g.totd
        && p.g.asd == 2
        && p.g.npd == 2
        && equal_halves(symbol(p.tape, p.g.symbols, 2, 0))
        && equal_halves(symbol(p.tape, p.g.symbols, 2, 1))
}

// Pilot entry i, which is given.
fn entry_tone(p: &Piece19, a: &[[u16; 2]; SYMBOLS], i: u32) -> Tone
    requires { Kept p.now.tape.now p.now.g.pilot p.now.g.npp p.now.g.asp a.now
        × (i < p.now.g.totp) × (is_some (entry_row p.now.tape.now p.now.g i) ≡ true) }
    ensures { entry_row p.now.tape.now p.now.g i ≡ Some result }
{
    entry_row(p, a, i).unwrap()
}

// Data symbol i, which is given.
#[tactic(auto, using(load_general::proofs::Given::single_below, load_general::proofs::Given::single_tone, load_general::proofs::Symbols::single_bit))]
fn single_tone(p: &Piece19, a: &[[u16; 2]; SYMBOLS], i: u32) -> Tone
    requires { Kept p.now.tape.now p.now.g.symbols p.now.g.npd p.now.g.asd a.now × (0 < p.now.g.nb) × (p.now.g.nb < 8)
        × (i < p.now.g.totd) × (is_some (single_row p.now.tape.now p.now.g i) ≡ true) }
    ensures { single_row p.now.tape.now p.now.g i ≡ Some result }
{
    let b = p.number_at(i * p.g.nb, 0);
    let y = a[b as usize];
    plain_tone(1, y[0], y[1])
}

// Pair i of data symbols, one pulse each, which is given.
#[tactic(auto, using(load_general::proofs::Given::pair_below, load_general::proofs::Given::pair_below_2, load_general::proofs::Given::pair_tone, load_general::proofs::Symbols::pair_bit, load_general::proofs::Symbols::pair_even))]
fn pair_tone(p: &Piece19, a: &[[u16; 2]; SYMBOLS], i: u32) -> Tone
    requires { Kept p.now.tape.now p.now.g.symbols p.now.g.npd p.now.g.asd a.now × (0 < p.now.g.nb) × (p.now.g.nb < 8)
        × (i < p.now.g.totd / 2) × (is_some (pair_row p.now.tape.now p.now.g i) ≡ true) }
    ensures { pair_row p.now.tape.now p.now.g i ≡ Some result }
{
    let bit = 2 * i * p.g.nb;
    let b = p.number_at(bit, 0);
    let d = p.number_at(bit, 1);
    plain_tone(1, a[b as usize][0], a[d as usize][0])
}

// The n rows of one sort, which fit, from row `used` on; `row` gives each as a tone.
fn put_rows<F: Fn(u32) -> Tone>(tones: &mut [u64], used: usize, n: u32, row: F)
    requires fits { n ≤ capacity_of tone tone_most tones.old - used }
    requires given { (i : ℕ) → i < n → F.pre row i }
    ensures { (rows : ℕ → Option Tone) → ((i : ℕ) (t : Tone) → i < n → F.post row i t → rows i ≡ Some t)
        → is_tones (rows_from rows 0 n) ≡ true → tones.new ≡ put_all tone tones.old used (part_tones (rows_from rows 0 n)) }
{
    for i in 0..n {
        put_row(tones, used + i as usize, row(i));
    }
}

// Whether `rows` tone rows fit after the first `used`.
fn room_for(tones: &[u64], used: usize, rows: u64) -> bool
    ensures { result ≡ leb rows (capacity_of tone tone_most tones.now - used) }
{
    rows <= capacity::<Tone>(tones).saturating_sub(used) as u64
}

// The pilot's rows, which are tones and fit.
fn put_pilot(p: &Piece19, tones: &mut [u64], used: usize)
    requires { (is_tones (pilot_of p.now.tape.now p.now.g) ≡ true)
        × (length (part_tones (pilot_of p.now.tape.now p.now.g)) ≤ capacity_of tone tone_most tones.old - used) }
    ensures { tones.new ≡ put_all tone tones.old used (part_tones (pilot_of p.now.tape.now p.now.g)) }
{
    if 0 < p.g.totp {
        let mut a = [[0; 2]; SYMBOLS];
        read_alphabet(&mut a, p.tape, p.g.pilot, p.g.asp, p.g.npp);
        put_rows(tones, used, p.g.totp, |i| entry_tone(p, &a, i));
    }
}

// The data's rows, which are tones and fit.
fn put_data(p: &Piece19, tones: &mut [u64], used: usize)
    requires { (is_tones (data_part p.now.tape.now p.now.g) ≡ true)
        × (length (part_tones (data_part p.now.tape.now p.now.g)) ≤ capacity_of tone tone_most tones.old - used) }
    ensures { tones.new ≡ put_all tone tones.old used (part_tones (data_part p.now.tape.now p.now.g)) }
{
    let mut a = [[0; 2]; SYMBOLS];
    read_alphabet(&mut a, p.tape, p.g.symbols, p.g.asd, p.g.npd);
    if p.g.npd == 2 {
        put_rows(tones, used, p.g.totd, |i| single_tone(p, &a, i));
    } else {
        put_rows(tones, used, pairs_of(p.g.totd), |i| pair_tone(p, &a, i));
    }
}

// The bits of the last data byte.
#[tactic(auto, unfolding(load_general::specs::General::used_bits))]
fn last_bits(totd: u32) -> u32
    ensures { result ≡ used_bits totd }
{
    if totd % 8 == 0 { 8 } else { totd % 8 }
}

// The data block, after a pilot of n rows.
#[tactic(auto, using(load_general::proofs::Parts::told_tones, load_general::proofs::Parts::told_length, load_general::proofs::Symbols::two_inside, crate::proofs::Answers::plain_two), unfolding(load_general::specs::Held::symbol_words))]
fn data_block(p: &Piece19, tones: &mut [u64], used: usize, n: u32) -> Result<Made, NoRows>
    requires { (judged_of (pilot_of p.now.tape.now p.now.g) ≡ Ok n) × ((ltb 0 p.now.g.totd && ordinary p.now.tape.now p.now.g) ≡ true) }
    ensures { MadeDone (with_pilot p.now.tape.now p.now.g (pilot_of p.now.tape.now p.now.g)) used tones.old tones.new result }
{
    if !room_for(tones, used, n as u64) {
        return Err(NoRows::Full);
    }
    put_pilot(p, tones, used);
    let zero = symbol(p.tape, p.g.symbols, 2, 0);
    let one = symbol(p.tape, p.g.symbols, 2, 1);
    Ok(Made::Data {
        rows: n as u64,
        zero: zero[0] as u32,
        one: one[0] as u32,
        last: last_bits(p.g.totd),
    })
}

// The block of tones alone, n of the pilot and m of the data.
#[tactic(auto, using(load_general::proofs::Parts::told_tones, load_general::proofs::Parts::told_length))]
fn tone_block(p: &Piece19, tones: &mut [u64], used: usize, n: u32, m: u32) -> Result<Made, NoRows>
    requires { (judged_of (pilot_of p.now.tape.now p.now.g) ≡ Ok n) × (judged_of (data_part p.now.tape.now p.now.g) ≡ Ok m) }
    ensures { MadeDone (with_data (part_tones (pilot_of p.now.tape.now p.now.g)) (data_part p.now.tape.now p.now.g)) used
        tones.old tones.new result }
{
    let rows = n as u64 + m as u64;
    if !room_for(tones, used, rows) {
        return Err(NoRows::Full);
    }
    put_pilot(p, tones, used);
    put_data(p, tones, used + n as usize);
    Ok(Made::Tones { rows })
}

// The block, after a pilot of n rows; the data part is judged before a row is written.
fn with_pilot(p: &Piece19, tones: &mut [u64], used: usize, n: u32) -> Result<Made, NoRows>
    requires { judged_of (pilot_of p.now.tape.now p.now.g) ≡ Ok n }
    ensures { MadeDone (with_pilot p.now.tape.now p.now.g (pilot_of p.now.tape.now p.now.g)) used tones.old tones.new result }
{
    if ordinary(p) {
        return data_block(p, tones, used, n);
    }
    let m = data_part(p)?;
    tone_block(p, tones, used, n, m)
}

// What a 19 comes to, its rows put after the first `used` of the tone table: the answer decides, and nothing is written
// but the rows of `Ok`. Our crates call it with what `cut_piece::cut` gave for this tape, where 0 means 255; docs/PROMISES.md names it, so tape and
// numbers stay apart.
#[tactic(auto, unfolding(load_general::specs::General::general_of))]
pub fn general(
    tape: &[u8],
    g: GeneralizedData,
    tones: &mut [u64],
    used: usize,
) -> Result<Made, NoRows>
    requires { Held tape.now g }
    ensures { MadeDone (general_of tape.now g) used tones.old tones.new result }
{
    let p = Piece19 { tape, g };
    let n = pilot_part(&p)?;
    with_pilot(&p, tones, used, n)
}
