// The data part of a generalised piece (19): which symbols are given, and what the part comes to.
#![tactic(auto)]

ghost use Rattle.std.specs.Prelude.{◌≡◌, ◌&&◌, ◌/◌, ◌^◌, ◌<◌, leb, ltb, eqb, is_some};
ghost use Rattle.load_general.specs.General.{single_row, pair_row, rows_from, singles_of, pairs_of, data_part};
ghost use Rattle.load_general.specs.Made.{judged_of, is_tones};

use cut_grammar::GeneralizedData;
use load_general::{NoRows, Piece19, all_given, pairs_of, part_of, power};

// Whether every number of nb bits is a symbol's: then no data symbol has to be looked at.
fn every_number(g: GeneralizedData) -> bool
    requires { g.nb < 8 }
    ensures { result ≡ leb (2 ^ g.nb) g.asd }
{
    power(g.nb) <= g.asd
}

// Whether data symbol i is given.
#[tactic(auto, using(load_general::proofs::Given::single_given))]
fn single_given(p: &Piece19, i: u32) -> bool
    requires { (0 < p.now.g.nb) × (p.now.g.nb < 8) × (i < p.now.g.totd) }
    ensures { result ≡ is_some (single_row p.now.tape.now p.now.g i) }
{
    p.number_at(i * p.g.nb, 0) < p.g.asd
}

// Whether all data symbols are given.
#[tactic(auto, using(load_general::proofs::Given::every_single))]
fn singles_given(p: &Piece19) -> bool
    requires { (0 < p.now.g.nb) × (p.now.g.nb < 8) }
    ensures { result ≡ is_tones (rows_from (single_row p.now.tape.now p.now.g) 0 p.now.g.totd) }
{
    every_number(p.g) || all_given(p.g.totd, |i| single_given(p, i))
}

// Whether pair i of data symbols is given.
#[tactic(auto, using(load_general::proofs::Given::pair_given, load_general::proofs::Symbols::pair_bit, load_general::proofs::Symbols::pair_even))]
fn pair_given(p: &Piece19, i: u32) -> bool
    requires { (0 < p.now.g.nb) × (p.now.g.nb < 8) × (i < p.now.g.totd / 2) }
    ensures { result ≡ is_some (pair_row p.now.tape.now p.now.g i) }
{
    let bit = 2 * i * p.g.nb;
    p.number_at(bit, 0) < p.g.asd && p.number_at(bit, 1) < p.g.asd
}

// Whether all pairs of data symbols are given.
#[tactic(auto, using(load_general::proofs::Given::every_pair))]
fn pairs_given(p: &Piece19) -> bool
    requires { (1 < p.now.g.totd → 0 < p.now.g.nb) × (p.now.g.nb < 8) }
    ensures { result ≡ is_tones (rows_from (pair_row p.now.tape.now p.now.g) 0 (p.now.g.totd / 2)) }
{
    every_number(p.g) || all_given(pairs_of(p.g.totd), |i| pair_given(p, i))
}

// Whether symbols of no bits are more than one.
fn no_bits(g: GeneralizedData) -> bool
    ensures { result ≡ (eqb g.nb 0 && ltb 1 g.totd) }
{
    g.nb == 0 && 1 < g.totd
}

// What the data part comes to where its symbols have two pulses.
#[tactic(auto, unfolding(load_general::specs::General::singles_of, load_general::specs::Made::judged_of))]
fn singles_part(p: &Piece19) -> Result<u32, NoRows>
    requires { (0 < p.now.g.totd) × (p.now.g.npd ≡ 2) × (p.now.g.nb < 8) }
    ensures { result ≡ judged_of (singles_of p.now.tape.now p.now.g) }
{
    if p.g.nb == 0 {
        Err(NoRows::Refused)
    } else {
        part_of(singles_given(p), p.g.totd)
    }
}

// What the data part comes to where its symbols have one pulse.
#[tactic(auto, using(load_general::proofs::Parts::some_bits), unfolding(load_general::specs::General::pairs_of, load_general::specs::Made::judged_of))]
fn pairs_part(p: &Piece19) -> Result<u32, NoRows>
    requires { (0 < p.now.g.totd) × (p.now.g.npd ≡ 1) × (p.now.g.nb < 8) }
    ensures { result ≡ judged_of (pairs_of p.now.tape.now p.now.g) }
{
    if no_bits(p.g) {
        Err(NoRows::Refused)
    } else {
        part_of(pairs_given(p), pairs_of(p.g.totd))
    }
}

// What the data part comes to where it is no ordinary data block.
#[tactic(auto, unfolding(load_general::specs::General::data_part, load_general::specs::Made::judged_of))]
pub fn data_part(p: &Piece19) -> Result<u32, NoRows>
    ensures { result ≡ judged_of (data_part p.now.tape.now p.now.g) }
{
    if p.g.totd == 0 || 8 <= p.g.nb {
        return Err(NoRows::Refused);
    }
    match p.g.npd {
        2 => singles_part(p),
        1 => pairs_part(p),
        _ => Err(NoRows::Stop),
    }
}
