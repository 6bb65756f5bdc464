// The source reading of a whole tape: a TZX, by its head, its pieces and refusal 7's test; a TAP, block by block.
ghost use Rattle.std.specs.Prelude.{◌≡◌, ◌&&◌, List, ℕ, ◌≤◌, length, ltb};
ghost use Rattle.rows.specs.Table.{table_of, capacity_of};
ghost use Rattle.rows.specs.Rows.{block, block_most};
ghost use Rattle.load_source.specs.Source.{too_many_bits, read_tzx, read_tap};
ghost use Rattle.load_blocks.specs.Does.{lent_of};
ghost use Rattle.load_source.specs.Does.{Blank, Finds};

use crate::{Failure, NotRead, read_pieces};
use cut_grammar::{Heading, TakenTap, cut_tap, head};
use load_blocks::{Origin, is_header, standard_data_block, standard_pause};
use load_state::{State, new_state};
use refusals::LAST_BITS;
use rows::{Block, row_at};

// A block of a TAP is a standard one.
const TAP_KIND: u8 = 0x10;

// Whether a block with data has last bits above 8.
fn too_many(r: Block) -> bool
    ensures { result ≡ ltb 0 r.size && ltb 8 r.last }
{
    r.size != 0 && 8 < r.last
}

// Whether one of the first n blocks has.
fn too_many_bits(blocks: &[u64], n: u64) -> bool
    requires { n ≤ capacity_of block block_most blocks.now }
    ensures { (B : ℕ) (rs : List Block) → n ≡ length rs → blocks.now ≡ table_of block rs B → result ≡ too_many_bits rs }
{
    for i in 0..n {
        if too_many(row_at(blocks, i as usize)) {
            return true;
        }
    }
    false
}

// A TZX; our crates alone call it, over blank tables.
pub fn read_tzx(
    tape: &[u8],
    model: u32,
    blocks: &mut [u64],
    tones: &mut [u64],
) -> Result<State, NotRead>
    requires { Blank blocks.old × Blank tones.old }
    ensures { Finds (length blocks.old) (length tones.old) result blocks.new tones.new
        (read_tzx (lent_of (length blocks.old) (length tones.old)) tape.now model) }
{
    match head(tape) {
        Heading::Version { .. } => {
            let s = read_pieces(tape, model, blocks, tones)?;
            if too_many_bits(blocks, s.blocks) {
                return Err(NotRead::Refused(LAST_BITS));
            }
            Ok(s)
        }
        Heading::BadSignature => Err(NotRead::Failed(Failure::BadSignature)),
        Heading::Short { place, width } => { Err(NotRead::Failed(Failure::Short { place, width })) }
    }
}

// A TAP; our crates alone call it, over blank tables.
pub fn read_tap(tape: &[u8], blocks: &mut [u64], tones: &mut [u64]) -> Result<State, NotRead>
    requires { Blank blocks.old × Blank tones.old }
    ensures { Finds (length blocks.old) (length tones.old) result blocks.new tones.new
        (read_tap (lent_of (length blocks.old) (length tones.old)) tape.now) }
{
    let mut s = new_state();
    let mut at = 0;
    // a walk from block to block, no index
    while at < tape.len() as u64 {
        match cut_tap(tape, at) {
            TakenTap::End | TakenTap::Lone => return Ok(s),
            TakenTap::Block { from, size, next } => {
                let header = is_header(tape, from, size);
                let pause = standard_pause(header);
                let origin = Origin {
                    kind: TAP_KIND,
                    place: at,
                };
                s = standard_data_block(tape, s, blocks, tones, origin, header, from, size, pause)?;
                at = next;
            }
            TakenTap::Short { place, width } => {
                return Err(NotRead::Failed(Failure::Short { place, width }));
            }
        }
    }
    Ok(s)
}
