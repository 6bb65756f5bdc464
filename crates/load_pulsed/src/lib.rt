// The blocks of pieces that have their tones in the tape's bytes: pulses (13), generalised data (19). The reading alone calls them.
#![tactic(auto)]

ghost use Rattle.std.specs.Prelude.{◌≡◌, List, ℕ, ◌+◌, ◌*◌, ◌^◌, ◌≤◌, ◌<◌, length};
ghost use Rattle.play_entries.specs.Figures.{Owns, sounding};
ghost use Rattle.load_general.specs.General.{general_of};
ghost use Rattle.load_general.specs.Held.{Held};
ghost use Rattle.load_state.specs.Parser.{Parsed, with_tones, add_block};
ghost use Rattle.load_state.specs.Holds.{Holds, GivesOut, block_room};
ghost use Rattle.load_blocks.specs.Sounds.{ms, row_of, add_sounds};
ghost use Rattle.load_blocks.specs.Blocks.{pulse_at, pair_sounds, data_sound};
ghost use Rattle.load_blocks.specs.Deeds.{general_deed, does};
ghost use Rattle.load_blocks.specs.Does.{Does, with_used};

use cut_fields::low_first;
use cut_grammar::GeneralizedData;
use load_blocks::{Bits, Origin, add_rows, bare_row, data_row, no_bits};
use load_general::{Made, NoRows};
use load_general_rows::general;
use load_state::{Halt, State, add_block};
use load_stops::stop_block;
use play_times::{data_figure, tone_figure, tones_figure};
use refusals::{GENERALISED, TONES_FULL};
use rows::{Block, Tone};

// Pulse i of those at `from`; its callers know it to lie in the tape.
#[tactic(auto, unfolding(load_blocks::specs::Blocks::pulse_at))]
fn pulse_at(tape: &[u8], from: u64, i: u64) -> u64
    requires { from + i * 2 + 2 ≤ length tape.now }
    ensures { result ≡ pulse_at tape.now from i }
{
    low_first(tape, from + i * 2, 2) as u64
}

// 13: one block for each of n pairs of pulses; its callers know them to lie in the tape.
pub fn pulse_blocks(
    tape: &[u8],
    mut s: State,
    blocks: &mut [u64],
    tones: &mut [u64],
    origin: Origin,
    from: u64,
    n: u64,
) -> Result<State, Halt>
    requires { from + n * 4 ≤ length tape.now }
    ensures { Does (λ lent. add_sounds lent tape.now origin (pair_sounds tape.now from 0 n)) s result blocks.old
        tones.old blocks.new tones.new }
{
    for i in 0..n {
        let pair = Tone {
            num: 1,
            len1: pulse_at(tape, from, 2 * i),
            len2: pulse_at(tape, from, 2 * i + 1),
            wave: 0,
        };
        let r = bare_row(origin, s.tones, 1, 0);
        let sound = tone_figure(r, pair);
        s = add_rows(s, blocks, tones, &[pair], r.with_sound(sound))?;
    }
    Ok(s)
}

// A row with what it sounds, its tone rows read back from the table.
fn sounding(tape: &[u8], tones: &[u64], r: Block) -> Block
    ensures { (ts : List Tone) → Owns tones.now r ts → result ≡ sounding tape.now ts r }
{
    let sound = tones_figure(tones, r) + data_figure(tape, r);
    r.with_sound(sound)
}

// The block of a 19 whose tone rows stand in the table already, behind the first `s.tones`; its callers know that no count overflows.
fn general_block(
    tape: &[u8],
    s: State,
    blocks: &mut [u64],
    tones: &[u64],
    origin: Origin,
    rows: u64,
    bits: Bits,
    pause: u32,
) -> Result<State, Halt>
    requires { s.tones + rows < 2 ^ 64 }
    ensures { (B N : ℕ) (ts : List Tone) (t : Parsed) → length ts ≡ rows → s.tones ≡ length t.tones
        → Holds B N (with_used (s.tones + rows) s) blocks.old tones.now (with_tones ts t)
        → GivesOut B N result blocks.new tones.now
        (add_block (block_room B) (row_of tape.now origin (data_sound ts bits (ms pause)) s.tones) (with_tones ts t)) }
{
    let r = data_row(origin, s.tones, rows, bits, pause as u64 * 3500);
    let used = State {
        tones: s.tones + rows,
        ..s
    };
    add_block(used, blocks, sounding(tape, tones, r))
}

// 19; its callers know the piece to be one of this tape.
pub fn generalized_data_block(
    tape: &[u8],
    s: State,
    blocks: &mut [u64],
    tones: &mut [u64],
    origin: Origin,
    g: GeneralizedData,
) -> Result<State, Halt>
    requires { Held tape.now g }
    ensures { (model : ℕ)
        → Does (λ lent. does lent tape.now model origin (general_deed g (general_of tape.now g))) s result blocks.old
        tones.old blocks.new tones.new }
{
    match general(tape, g, tones, s.tones as usize) {
        Err(NoRows::Refused) => Err(Halt::Refusal(GENERALISED)),
        Err(NoRows::Full) => Err(Halt::Refusal(TONES_FULL)),
        Err(NoRows::Stop) => stop_block(s, blocks, origin),
        Ok(
            Made::Data {
                rows,
                zero,
                one,
                last,
            },
        ) => {
            let bits = Bits {
                start: g.from,
                size: g.size,
                zero: zero as u64,
                one: one as u64,
                last: last as u64,
            };
            general_block(tape, s, blocks, tones, origin, rows, bits, g.pause)
        }
        Ok(Made::Tones { rows }) => {
            general_block(tape, s, blocks, tones, origin, rows, no_bits(), g.pause)
        }
    }
}
