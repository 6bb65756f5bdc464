// The pilot part of a generalised piece (19): the row of each entry, and what the part comes to.
#![tactic(auto)]

ghost use Rattle.std.specs.Prelude.{◌≡◌, ◌||◌, ◌≤◌, ◌<◌, eqb};
ghost use Rattle.load_general.specs.General.{cycles, entry_row, rows_from, pilot_of};
ghost use Rattle.load_general.specs.Made.{judged_of, is_tones};
ghost use Rattle.load_general.specs.Held.{Kept, symbol_of};

use load_general::{
    NoRows, Piece19, SYMBOLS, all_given, alphabet, byte_at, part_of, plain_tone, word_at,
};
use rows::Tone;

// The cycles of a pilot symbol.
#[tactic(auto, unfolding(load_general::specs::General::cycles, load_general::specs::Held::symbol_of))]
fn cycles(y: [u16; 2], repeat: u16) -> Option<Tone>
    ensures { result ≡ cycles (symbol_of y) repeat }
{
    if y[1] == 0 {
        if repeat == 65535 {
            return None;
        }
        return Some(plain_tone((repeat + 1) / 2, y[0], y[0]));
    }
    Some(plain_tone(repeat, y[0], y[1]))
}

// Pilot entry i; its callers know the alphabet to be the piece's own.
#[tactic(auto, using(load_general::proofs::Symbols::kept_symbol), unfolding(load_general::specs::General::entry_row, load_general::specs::General::entry_symbol, load_general::specs::General::entry_repeat))]
pub fn entry_row(p: &Piece19, a: &[[u16; 2]; SYMBOLS], i: u32) -> Option<Tone>
    requires { Kept p.now.tape.now p.now.g.pilot p.now.g.npp p.now.g.asp a.now × (i < p.now.g.totp) }
    ensures { result ≡ entry_row p.now.tape.now p.now.g i }
{
    let at = p.g.entries + i as u64 * 3;
    let n = byte_at(p.tape, at);
    if p.g.asp <= n {
        return None;
    }
    cycles(a[n as usize], word_at(p.tape, at + 1))
}

// Whether all pilot entries are given.
#[tactic(auto, using(load_general::proofs::Symbols::pilot_inside))]
fn entries_given(p: &Piece19) -> bool
    requires { (0 < p.now.g.totp) × (0 < p.now.g.npp) }
    ensures { result ≡ is_tones (rows_from (entry_row p.now.tape.now p.now.g) 0 p.now.g.totp) }
{
    let a = alphabet(p.tape, p.g.pilot, p.g.asp, p.g.npp);
    all_given(p.g.totp, |i| entry_row(p, &a, i).is_some())
}

// Whether symbols have as many pulses as the source takes.
fn one_or_two(n: u32) -> bool
    ensures { result ≡ (eqb n 1 || eqb n 2) }
{
    n == 1 || n == 2
}

// What the pilot part comes to.
#[tactic(auto, using(load_general::proofs::Parts::some_pulses), unfolding(load_general::specs::General::pilot_of, load_general::specs::General::entry_symbol, load_general::specs::Made::judged_of))]
pub fn pilot_part(p: &Piece19) -> Result<u32, NoRows>
    ensures { result ≡ judged_of (pilot_of p.now.tape.now p.now.g) }
{
    if p.g.totp == 0 {
        return Ok(0);
    }
    if one_or_two(p.g.npp) {
        return part_of(entries_given(p), p.g.totp);
    }
    if p.g.asp <= byte_at(p.tape, p.g.entries) {
        Err(NoRows::Refused)
    } else {
        Err(NoRows::Stop)
    }
}
