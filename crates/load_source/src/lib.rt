// The source reading: what the Rust makes of each piece. Its definitions are of the whole run, over a TZX or a TAP.
#![tactic(auto)]

mod run;
mod whole;

ghost use Rattle.std.specs.Prelude.{List, ℕ, Err};
ghost use Rattle.load_source.specs.Source.{act, halted};
ghost use Rattle.load_blocks.specs.Does.{Does};
ghost use Rattle.load_source.specs.Does.{Fit, Finds};

use cut_grammar::Piece;
use load_blocks::{Bits, Origin, is_header, standard_data_block};
use load_groups::{group_end, pend};
use load_loops::{loop_end, loop_start};
use load_pulsed::{generalized_data_block, pulse_blocks};
use load_state::{Halt, Pending, State};
use load_stops::{pause_block, stop_on_48};
use load_toned::{pure_data_block, pure_tone_block, turbo_data_block};
pub use run::read_pieces;
pub use whole::{read_tap, read_tzx};

// Why a reading failed: a bad signature; the first field that came up short, in no piece (a head, a TAP) or in the piece of this kind,
// whose kind byte stands at `at`; or such a piece, a 2A, has a length that is not 0.
#[derive(Clone, Copy)]
pub enum Failure {
    BadSignature,
    Short {
        place: u64,
        width: u64,
    },
    ShortPiece {
        kind: u8,
        at: u64,
        place: u64,
        width: u64,
    },
    Length {
        kind: u8,
        at: u64,
        length: u32,
    },
}

// Why a reading gives no state at the end of the tape: a failure, or the refusal's number.
#[derive(Clone, Copy)]
pub enum NotRead {
    Failed(Failure),
    Refused(u32),
}

// A reading that halts: a refusal, or a failure.
impl From<Halt> for NotRead {
    ghost from_gives = { λ k e. (B N : ℕ) (bt tt : List ℕ) → Finds B N (Err e) bt tt (halted k) };

    fn from(k: Halt) -> NotRead {
        match k {
            Halt::Refusal(number) => NotRead::Refused(number),
            Halt::Length { kind, at, length } => {
                NotRead::Failed(Failure::Length { kind, at, length })
            }
        }
    }
}

// What a piece of this origin does; our crates alone call it, with what `cut_piece::cut` gave for this tape.
pub fn act(
    tape: &[u8],
    model: u32,
    s: State,
    blocks: &mut [u64],
    tones: &mut [u64],
    origin: Origin,
    piece: Piece,
) -> Result<State, Halt>
    requires { Fit tape.now piece }
    ensures { Does (λ lent. act lent tape.now model origin piece) s result blocks.old tones.old
        blocks.new tones.new }
{
    match piece {
        Piece::Standard { pause, from, size } => {
            let header = is_header(tape, from, size);
            let pause = pause as u64 * 3500;
            standard_data_block(tape, s, blocks, tones, origin, header, from, size, pause)
        }
        Piece::Turbo(d) => turbo_data_block(tape, s, blocks, tones, origin, d),
        Piece::Tone { half, count } => pure_tone_block(s, blocks, tones, origin, half, count),
        Piece::Pulses { count, from } => {
            pulse_blocks(tape, s, blocks, tones, origin, from, (count / 2) as u64)
        }
        Piece::Pure {
            zero,
            one,
            last,
            pause,
            from,
            size,
        } => {
            let bits = Bits {
                start: from,
                size: size as u64,
                zero: zero as u64,
                one: one as u64,
                last: last as u64,
            };
            pure_data_block(tape, s, blocks, tones, origin, bits, pause)
        }
        Piece::Generalized(g) => generalized_data_block(tape, s, blocks, tones, origin, g),
        Piece::Pause { ms } => pause_block(s, blocks, origin, ms),
        Piece::GroupStart { from, size } => {
            let chars = size as u64;
            Ok(pend(s, Pending::First { text: from, chars }))
        }
        Piece::GroupEnd => Ok(group_end(s, blocks)),
        Piece::LoopStart { times } => Ok(loop_start(s, times)),
        Piece::LoopEnd => loop_end(s, blocks),
        Piece::Stop48 { length } => stop_on_48(model, s, blocks, origin, length),
        Piece::Text { from, size } => {
            let chars = size as u64;
            Ok(pend(s, Pending::Text { text: from, chars }))
        }
        Piece::Message | Piece::Archive | Piece::Hardware | Piece::Custom | Piece::Glue => Ok(s),
    }
}
