// A block's row at its birth, and what adding one does: of any reading. The source reading's standard block.
// The reading and the crates of the other blocks alone call it.
#![tactic(auto)]

ghost use Rattle.std.specs.Prelude.{◌≡◌, List, [], ◌∷◌, ℕ};
ghost use Rattle.load_blocks.specs.Adds.{add_rows};
ghost use Rattle.load_blocks.specs.Sounds.{no_bits, ends_after, ends_in_stop, row_for, add_sound};
ghost use Rattle.load_blocks.specs.Blocks.{data_sound, standard_header, standard_cycles, standard_pause, standard_sound};
ghost use Rattle.load_blocks.specs.Does.{Does};

use load_state::{Halt, State, add_block, add_tone};
use play_times::{data_figure, tone_figure};
use rows::{Block, Tone};

// Where a block comes from: its piece's kind, and where that piece stands in the tape.
// What a row takes from outside its sound is a field here; no word has any of it yet.
// It isn't one with the tape: births, stops and pure tones take it without a tape, headers and figures take a tape without it.
#[derive(Clone, Copy)]
pub struct Origin {
    pub kind: u8,
    pub place: u64,
}

// Bits of data: where they stand in the tape, and how they sound.
#[derive(Clone, Copy)]
pub struct Bits {
    pub start: u64,
    pub size: u64,
    pub zero: u64,
    pub one: u64,
    pub last: u64,
}

// What follows the sound: a pause, or the tape stops; and the case of name that this gives.
#[derive(Clone, Copy)]
pub struct Ending {
    pub pause: u64,
    pub endless: u64,
    pub named: u64,
}

// A block's row at birth, over so many tone rows from `tone` on: the one place where a row's words are written.
fn row(origin: Origin, tone: u64, tones: u64, bits: Bits, ending: Ending, selectable: u64) -> Block
    ensures { result ≡ row_for origin tone tones bits ending selectable }
{
    Block {
        tone,
        tones,
        start: bits.start,
        size: bits.size,
        zero: bits.zero,
        one: bits.one,
        last: bits.last,
        pause: ending.pause,
        endless: ending.endless,
        selectable,
        named: ending.named,
        text: 0,
        chars: 0,
        sort: 0,
        level: 0,
        played: 0,
        sound: 0,
    }
}

// No data.
pub fn no_bits() -> Bits
    ensures { result ≡ no_bits }
{
    Bits {
        start: 0,
        size: 0,
        zero: 0,
        one: 0,
        last: 0,
    }
}

// A block with data, or of a 19: selectable.
pub fn data_row(origin: Origin, tone: u64, tones: u64, bits: Bits, pause: u64) -> Block
    ensures { result ≡ row_for origin tone tones bits (ends_after pause) 1 }
{
    let ending = Ending {
        pause,
        endless: 0,
        named: 0,
    };
    row(origin, tone, tones, bits, ending, 1)
}

// A block of tones or of a pause alone: not selectable.
pub fn bare_row(origin: Origin, tone: u64, tones: u64, pause: u64) -> Block
    ensures { result ≡ row_for origin tone tones no_bits (ends_after pause) 0 }
{
    let ending = Ending {
        pause,
        endless: 0,
        named: 0,
    };
    row(origin, tone, tones, no_bits(), ending, 0)
}

// A stop block, named `stop`.
pub fn stop_row(origin: Origin, tone: u64) -> Block
    ensures { result ≡ row_for origin tone 0 no_bits ends_in_stop 1 }
{
    let ending = Ending {
        pause: 0,
        endless: 1,
        named: 1,
    };
    row(origin, tone, 0, no_bits(), ending, 1)
}

// A block over these tone rows.
pub fn add_rows(
    mut s: State,
    blocks: &mut [u64],
    tones: &mut [u64],
    rows: &[Tone],
    r: Block,
) -> Result<State, Halt>
    ensures { Does (λ lent. add_rows lent rows.now r) s result blocks.old tones.old blocks.new tones.new }
{
    for a in rows {
        s = add_tone(s, tones, *a)?;
    }
    add_block(s, blocks, r)
}

// A block of a pilot, a sync and bits of data, with what they sound.
pub fn data_block(
    tape: &[u8],
    s: State,
    blocks: &mut [u64],
    tones: &mut [u64],
    origin: Origin,
    pilot: Tone,
    sync: Tone,
    bits: Bits,
    pause: u64,
) -> Result<State, Halt>
    ensures { Does (λ lent. add_sound lent tape.now origin (data_sound (pilot ∷ sync ∷ []) bits pause)) s result
        blocks.old tones.old blocks.new tones.new }
{
    let r = data_row(origin, s.tones, 2, bits, pause);
    let sound = tone_figure(r, pilot) + tone_figure(r, sync) + data_figure(tape, r);
    add_rows(s, blocks, tones, &[pilot, sync], r.with_sound(sound))
}

// Whether a standard block is a header.
#[tactic(auto, unfolding(crate::specs::Blocks::standard_header))]
pub fn is_header(tape: &[u8], start: u64, size: u32) -> bool
    ensures { result ≡ standard_header tape.now start size }
{
    size == 0 || tape.len() as u64 <= start || tape[start as usize] < 128
}

// The pilot cycles of a standard block.
#[tactic(auto, unfolding(crate::specs::Blocks::standard_cycles))]
fn standard_cycles(header: bool) -> u64
    ensures { result ≡ standard_cycles header }
{
    if header { 4032 } else { 1612 }
}

// 10, and a block of a TAP.
#[tactic(auto, unfolding(crate::specs::Blocks::standard_tones, crate::specs::Blocks::standard_sound))]
pub fn standard_data_block(
    tape: &[u8],
    s: State,
    blocks: &mut [u64],
    tones: &mut [u64],
    origin: Origin,
    header: bool,
    start: u64,
    size: u32,
    pause: u64,
) -> Result<State, Halt>
    ensures { Does (λ lent. add_sound lent tape.now origin (standard_sound header start size pause)) s result
        blocks.old tones.old blocks.new tones.new }
{
    let pilot = Tone {
        num: standard_cycles(header),
        len1: 2168,
        len2: 2168,
        wave: 0,
    };
    let sync = Tone {
        num: 1,
        len1: 667,
        len2: 735,
        wave: 0,
    };
    let bits = Bits {
        start,
        size: size as u64,
        zero: 855,
        one: 1710,
        last: 8,
    };
    data_block(tape, s, blocks, tones, origin, pilot, sync, bits, pause)
}

// A block without tone rows: it is lent no tone table.
pub fn no_tone(s: State, blocks: &mut [u64], r: Block) -> Result<State, Halt>
    ensures { (tt : List ℕ) → Does (λ lent. add_rows lent [] r) s result blocks.old tt blocks.new tt }
{
    add_block(s, blocks, r)
}

// The pause of a standard block in a TAP.
#[tactic(auto, unfolding(crate::specs::Blocks::standard_pause))]
pub fn standard_pause(header: bool) -> u64
    ensures { result ≡ standard_pause header }
{
    if header { 3500000 } else { 7000000 }
}
