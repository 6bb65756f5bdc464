// A group's start and end, and a text: what is pending, and the pause that a group's end gives the last block.
#![tactic(auto)]

ghost use Rattle.std.specs.Prelude.{◌≡◌, List, ℕ, ◌≤◌, length, Ok};
ghost use Rattle.rows.specs.Table.{table_of};
ghost use Rattle.rows.specs.Rows.{block};
ghost use Rattle.load_state.specs.Parser.{Parsed, in_group, paused, last_paused, pend, end_group};
ghost use Rattle.load_state.specs.Holds.{Holds, GivesOut, block_room};

use load_state::{Pending, State};
use rows::{Block, capacity, put_row, row_at};

fn in_group(p: Pending) -> bool
    ensures { result ≡ in_group p }
{
    matches!(p, Pending::First { .. } | Pending::Later { .. })
}

// A group's start, or a text: its name is pending, but inside a group.
pub fn pend(s: State, new: Pending) -> State
    ensures { (B N : ℕ) (bt tt : List ℕ) (t : Parsed) → Holds B N s bt tt t → GivesOut B N (Ok result) bt tt (pend new t) }
{
    if in_group(s.pending) {
        return s;
    }
    State { pending: new, ..s }
}

// A block whose finite pause 0 is 3,500 instead.
#[tactic(auto, unfolding(load_state::specs::Parser::paused))]
fn paused(r: Block) -> Block
    ensures { result ≡ paused r }
{
    if r.endless == 0 && r.pause == 0 {
        r.with_pause(3500)
    } else {
        r
    }
}

// The last of n blocks with its pause, if any.
fn pause_last(blocks: &mut [u64], n: u64)
    ensures { (B : ℕ) (rs : List Block) → length blocks.old ≡ B → n ≡ length rs → length rs ≤ block_room B
        → blocks.old ≡ table_of block rs B → blocks.new ≡ table_of block (last_paused rs) B }
{
    if n == 0 {
        return;
    }
    let i = (n - 1) as usize;
    if i < capacity::<Block>(blocks) {
        put_row(blocks, i, paused(row_at(blocks, i)));
    }
}

pub fn group_end(s: State, blocks: &mut [u64]) -> State
    ensures { (B N : ℕ) (tt : List ℕ) (t : Parsed) → Holds B N s blocks.old tt t
        → GivesOut B N (Ok result) blocks.new tt (end_group t) }
{
    pause_last(blocks, s.blocks);
    if in_group(s.pending) {
        return State {
            pending: Pending::Nothing,
            ..s
        };
    }
    s
}
