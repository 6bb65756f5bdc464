// The block that a position is shown under.
#![tactic(auto)]

ghost use Rattle.std.specs.Prelude.{◌≡◌, ◌+◌, ◌*◌, ◌≤◌, length};
ghost use Rattle.rows.specs.Rows.{block};
ghost use Rattle.play_entries.specs.Mounted.{mounted_tape};
ghost use Rattle.play_deck.specs.Deck.{back_to, block_at};

use play_deck::judge;
use play_entries::Mounted;
use play_walk::{Fault, Position};

// From a block back to a selectable one or 0; its callers know the rows to be lent.
#[tactic(auto, using(play_deck::proofs::Sourced::back_bad, play_deck::proofs::Sourced::back_none, play_deck::proofs::Sourced::back_here, play_deck::proofs::Sourced::back_on))]
fn back(m: &Mounted<'_>, from: u64) -> Result<u64, Fault>
    requires { from * block.width + block.width ≤ length m.now.blocks.now }
    ensures { result ≡ back_to (mounted_tape m.now) from }
{
    for b in (1..=from).rev() {
        if !m.row_well(b) {
            return Err(Fault::NotFormed);
        }
        if m.row(b).selectable == 1 {
            return Ok(b);
        }
    }
    if m.row_well(0) {
        Ok(0)
    } else {
        Err(Fault::NotFormed)
    }
}

// The block that a position is shown under: back to a selectable one, or past the end.
#[tactic(auto, unfolding(play_deck::specs::Deck::block_of))]
pub fn block(m: &Mounted<'_>, pos: Position) -> Result<u64, Fault>
    ensures { result ≡ block_at (mounted_tape m.now) pos }
{
    judge(m, pos)?;
    if m.count <= pos.block {
        return Ok(Position::PAST_END);
    }
    back(m, pos.block)
}
