// The run of the source reading over the pieces of a TZX.
ghost use Rattle.std.specs.Prelude.{length};
ghost use Rattle.load_state.specs.Parser.{empty};
ghost use Rattle.load_blocks.specs.Does.{lent_of};
ghost use Rattle.load_source.specs.Source.{tzx_see, fold_from};
ghost use Rattle.load_source.specs.Does.{Blank, Finds};

use crate::{Failure, NotRead, act};
use cut_grammar::Taken;
use cut_piece::cut;
use load_blocks::Origin;
use load_state::{State, new_state};
use refusals::GENERALISED;

// An alphabet size of 0 means 255.
const FULL: u32 = 255;

// The pieces of a TZX, from behind its head to the end; our crates alone call it, over blank tables.
pub fn read_pieces(
    tape: &[u8],
    model: u32,
    blocks: &mut [u64],
    tones: &mut [u64],
) -> Result<State, NotRead>
    requires { Blank blocks.old × Blank tones.old }
    ensures { Finds (length blocks.old) (length tones.old) result blocks.new tones.new
        (fold_from (tzx_see (lent_of (length blocks.old) (length tones.old)) tape.now model)
        (length tape.now) 10 empty) }
{
    let mut s = new_state();
    let mut at = 10;
    // a walk from piece to piece, no index
    while at < tape.len() as u64 {
        match cut(tape, at, FULL) {
            Taken::End => return Ok(s),
            Taken::Whole {
                kind,
                at: place,
                next,
                piece,
            } => {
                let origin = Origin { kind, place };
                s = act(tape, model, s, blocks, tones, origin, piece)?;
                at = next;
            }
            Taken::Unknown { .. } => at += 1,
            Taken::Short { kind, place, width } => {
                return Err(NotRead::Failed(Failure::ShortPiece {
                    kind,
                    at,
                    place,
                    width,
                }));
            }
            Taken::Overflow { .. } => return Err(NotRead::Refused(GENERALISED)),
        }
    }
    Ok(s)
}
