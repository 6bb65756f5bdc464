// A mounted tape: what every player and every query takes.
#![tactic(auto)]

ghost use Rattle.std.specs.Prelude.{◌≡◌, ◌+◌, ◌*◌, ◌≤◌, length};
ghost use Rattle.rows.specs.Table.{get};
ghost use Rattle.rows.specs.Rows.{block};
ghost use Rattle.play_entries.specs.Mounted.{mounted_tape, tape_size, overfull, well_row};

use rows::{Block, capacity, row_at};
use rows_well::block_well;

// A tape's bytes, its tone table, its block table and how many blocks it counts.
#[derive(Clone, Copy)]
pub struct Mounted<'a> {
    pub tape: &'a [u8],
    pub tones: &'a [u64],
    pub blocks: &'a [u64],
    pub count: u64,
}

// A tape's bytes, at most 1,048,576.
pub fn size_of(tape: &[u8]) -> u64
    ensures { result ≡ tape_size tape.now }
{
    (tape.len() as u64).min(1048576)
}

impl Mounted<'_> {
    // Its bytes, at most 1,048,576.
    pub fn size(&self) -> u64
        ensures { result ≡ tape_size (mounted_tape self.now).bytes }
    {
        size_of(self.tape)
    }

    // Whether it counts more blocks than its table has.
    pub fn is_overfull(&self) -> bool
        ensures { result ≡ overfull (mounted_tape self.now) }
    {
        (capacity::<Block>(self.blocks) as u64) < self.count
    }

    // Block b's row, which its callers know to be lent.
    pub fn row(&self, b: u64) -> Block
        requires { b * block.width + block.width ≤ length self.now.blocks.now }
        ensures { result ≡ get block (mounted_tape self.now).blocks b }
    {
        row_at(self.blocks, b as usize)
    }

    // Whether block b's row is well formed; its callers know the row to be lent.
    #[tactic(auto, unfolding(crate::specs::Mounted::well_row))]
    pub fn row_well(&self, b: u64) -> bool
        requires { b * block.width + block.width ≤ length self.now.blocks.now }
        ensures { result ≡ well_row (mounted_tape self.now) b }
    {
        block_well(self.size(), self.tones, self.row(b))
    }
}
