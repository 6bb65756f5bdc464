// A loop's start, and its end, which appends copies of its body.
#![tactic(auto)]

ghost use Rattle.std.specs.Prelude.{◌≡◌, List, ℕ, ◌≤◌, length, drop, Ok};
ghost use Rattle.std.proofs.Math.Seq.{slice};
ghost use Rattle.rows.specs.Table.{capacity_of};
ghost use Rattle.rows.specs.Rows.{block, block_most};
ghost use Rattle.load_state.specs.Parser.{Parsed, open_loop, copy_rows, copies, close_loop};
ghost use Rattle.load_state.specs.Holds.{Holds, GivesOut, block_room};

use load_state::{Body, Halt, State, add_block, rename};
use refusals::BLOCKS_FULL;
use rows::{Block, capacity, row_at};

// A nested start is ignored.
pub fn loop_start(s: State, times: u32) -> State
    ensures { (B N : ℕ) (bt tt : List ℕ) (t : Parsed) → Holds B N s bt tt t → GivesOut B N (Ok result) bt tt (open_loop times t) }
{
    let start = s.blocks;
    State {
        body: s.body.or(Some(Body { start, times })),
        ..s
    }
}

// One body more: the blocks from `start` up to `end`.
fn copy_body(mut s: State, blocks: &mut [u64], start: u64, end: u64) -> Result<State, Halt>
    requires { end ≤ capacity_of block block_most blocks.old }
    ensures { (B N : ℕ) (tt : List ℕ) (t : Parsed) → Holds B N s blocks.old tt t → end ≤ length t.blocks
        → GivesOut B N result blocks.new tt (copy_rows (block_room B) (slice start end t.blocks) t) }
{
    for i in start..end {
        s = add_block(s, blocks, rename(0, 0, 0, 0, row_at(blocks, i as usize)))?;
    }
    Ok(s)
}

// So many bodies more; each adds a block or refuses, since `start` is below `end`.
fn copy_bodies(
    mut s: State,
    blocks: &mut [u64],
    start: u64,
    end: u64,
    times: u32,
) -> Result<State, Halt>
    requires { end ≤ capacity_of block block_most blocks.old }
    ensures { (B N : ℕ) (tt : List ℕ) (t : Parsed) → Holds B N s blocks.old tt t → end ≤ length t.blocks
        → GivesOut B N result blocks.new tt (copies (block_room B) times (slice start end t.blocks) t) }
{
    for _ in 0..times {
        s = copy_body(s, blocks, start, end)?;
    }
    Ok(s)
}

// The bodies that an open loop's end appends; an empty body costs nothing, however often it is repeated.
fn repeat(s: State, blocks: &mut [u64], b: Body) -> Result<State, Halt>
    ensures { (B N : ℕ) (tt : List ℕ) (t : Parsed) → Holds B N s blocks.old tt t
        → GivesOut B N result blocks.new tt (copies (block_room B) b.times (drop b.start t.blocks) t) }
{
    let end = s.blocks;
    if end <= b.start {
        return Ok(s);
    }
    if (capacity::<Block>(blocks) as u64) < end {
        return Err(Halt::Refusal(BLOCKS_FULL));
    }
    copy_bodies(s, blocks, b.start, end, b.times)
}

pub fn loop_end(s: State, blocks: &mut [u64]) -> Result<State, Halt>
    ensures { (B N : ℕ) (tt : List ℕ) (t : Parsed) → Holds B N s blocks.old tt t
        → GivesOut B N result blocks.new tt (close_loop (block_room B) t) }
{
    match s.body {
        None => Ok(s),
        Some(b) => repeat(State { body: None, ..s }, blocks, b),
    }
}
