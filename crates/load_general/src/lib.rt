// Generalised data (19) in the source reading: what a cut piece gives, and the reading of its symbols and of the numbers in its data.
#![tactic(auto)]

ghost use Rattle.std.specs.Prelude.{◌≡◌, ℕ, Bool, Option, ◌+◌, ◌*◌, ◌-◌, ◌/◌, ◌%◌, ◌^◌, ◌≤◌, ◌<◌, length, get_or, is_some};
ghost use Rattle.cut_fields.specs.Field.{le_at};
ghost use Rattle.load_general.specs.General.{symbol_at, plain_tone, rows_from};
ghost use Rattle.load_general.specs.Made.{judged_of, is_tones};
ghost use Rattle.load_general.specs.Held.{Kept, symbol_words};

mod piece;

use cut_fields::low_first;
pub use piece::Piece19;
use rows::Tone;

// The symbols of an alphabet at the most: rule 130 keeps one as an array by value, and how many it has stands in the piece.
pub const SYMBOLS: usize = 255;

// Why a part, or the piece, puts no rows: refusal 4, more rows than remain, or it is a stop block.
#[derive(Clone, Copy)]
pub enum NoRows {
    Refused,
    Full,
    Stop,
}

// What the piece comes to with its rows put: a data block, or a block of tones alone.
#[derive(Clone, Copy)]
pub enum Made {
    Data {
        rows: u64,
        zero: u32,
        one: u32,
        last: u32,
    },
    Tones {
        rows: u64,
    },
}

// The byte at a place, which its callers know to lie in the tape.
pub fn byte_at(tape: &[u8], at: u64) -> u32
    requires { at < length tape.now }
    ensures { result ≡ get_or tape.now at 0 }
{
    tape[at as usize] as u32
}

// The number of two bytes at a place.
#[tactic(auto, using(cut_fields::proofs::Le::le_small))]
pub fn word_at(tape: &[u8], at: u64) -> u16
    requires { at + 2 ≤ length tape.now }
    ensures { result ≡ le_at tape.now at 2 }
{
    low_first(tape, at, 2) as u16
}

// Symbol i of an alphabet, a flag byte, which the source ignores, and n pulses, of which two are kept;
// its callers know it to lie in the tape.
#[tactic(auto, unfolding(crate::specs::General::symbol_at, crate::specs::Held::symbol_words))]
pub fn symbol(tape: &[u8], place: u64, n: u32, i: u32) -> [u16; 2]
    requires { (0 < n) × (place + i * (1 + n * 2) + (1 + n * 2) ≤ length tape.now) }
    ensures { result ≡ symbol_words (symbol_at tape.now place n i) }
{
    let at = place + i as u64 * (1 + n as u64 * 2) + 1;
    let first = word_at(tape, at);
    if 1 < n {
        [first, word_at(tape, at + 2)]
    } else {
        [first, 0]
    }
}

// An alphabet of n symbols, which its callers know to lie in the tape, into the front of a lent array: by value, below, it may be copied.
pub fn read_alphabet(a: &mut [[u16; 2]; SYMBOLS], tape: &[u8], place: u64, n: u32, pulses: u32)
    requires { (n ≤ 255) × (0 < pulses) × (place + n * (1 + pulses * 2) ≤ length tape.now) }
    ensures { Kept tape.now place pulses n a.new }
{
    for i in 0..n {
        a[i as usize] = symbol(tape, place, pulses, i);
    }
}

// The same by value.
pub fn alphabet(tape: &[u8], place: u64, n: u32, pulses: u32) -> [[u16; 2]; SYMBOLS]
    requires { (n ≤ 255) × (0 < pulses) × (place + n * (1 + pulses * 2) ≤ length tape.now) }
    ensures { Kept tape.now place pulses n result }
{
    let mut a = [[0u16; 2]; SYMBOLS];
    read_alphabet(&mut a, tape, place, n, pulses);
    a
}

// A row of cycles.
pub fn plain_tone(num: u16, len1: u16, len2: u16) -> Tone
    ensures { result ≡ plain_tone num len1 len2 }
{
    Tone {
        num: num as u64,
        len1: len1 as u64,
        len2: len2 as u64,
        wave: 0,
    }
}

// How many numbers k bits can have, which its callers know to be fewer than 8 bits.
pub fn power(k: u32) -> u32
    requires { k < 8 }
    ensures { result ≡ 2 ^ k }
{
    1 << k
}

// How far a byte is shifted to have a bit, or the bit `more` further down, at its low end.
fn shift(bit: u32, more: u32) -> u32
    requires { bit % 8 + more ≤ 7 }
    ensures { result ≡ 7 - bit % 8 - more }
{
    7 - bit % 8 - more
}

// How many pairs n symbols make; an odd last one is dropped.
pub fn pairs_of(n: u32) -> u32
    ensures { result ≡ n / 2 }
{
    n / 2
}

// What n rows of any sort come to, where `given` says whether all are given.
pub fn part_of(given: bool, n: u32) -> Result<u32, NoRows>
    ensures { (row : ℕ → Option Tone) → given ≡ is_tones (rows_from row 0 n) → result ≡ judged_of (rows_from row 0 n) }
{
    if given { Ok(n) } else { Err(NoRows::Refused) }
}

// Whether all n rows of one sort are given, where `given` says it of each.
pub fn all_given<F: Fn(u32) -> bool>(n: u32, given: F) -> bool
    requires { (i : ℕ) → i < n → F.pre given i }
    ensures { (row : ℕ → Option Tone) → ((i : ℕ) (b : Bool) → i < n → F.post given i b → b ≡ is_some (row i))
        → result ≡ is_tones (rows_from row 0 n) }
{
    (0..n).all(given)
}
