// The parser's state: pending name, open loop, blocks and tones so far; a row added to either table.
// It knows no kinds and no places of pieces.
// Every promise is of each tape that the state and the tables hold; code is safe for any state, so it minds the capacity by itself.
// State and tables stay parameters of each step: a struct that holds both tables has to say in each contract that it lends the same two still, as long
// as they were, and takes from a step that writes one of them what its type says now.
#![tactic(auto)]

ghost use Rattle.std.specs.Prelude.{◌≡◌, List, [], ◌∷◌, ℕ};
ghost use Rattle.rows.specs.Table.{zeros};
ghost use Rattle.load_state.specs.Parser.{Parsed, empty, renamed, named, used, add_tones, add_block};
ghost use Rattle.load_state.specs.Holds.{Holds, GivesOut, block_room, tone_room};

use refusals::{BLOCKS_FULL, TONES_FULL};
use rows::{Block, Tone, append};

// The name that the next blocks take; a place in the tape and a length. The Rust's `GroupParse`.
#[derive(Clone, Copy)]
pub enum Pending {
    Nothing,
    First { text: u64, chars: u64 },
    Later { text: u64, chars: u64 },
    Text { text: u64, chars: u64 },
}

// An open loop: the first block of its body, and how many further bodies its end appends.
#[derive(Clone, Copy)]
pub struct Body {
    pub start: u64,
    pub times: u32,
}

// The Rust's `Parser`: how many rows of each table are used, and what is pending.
#[derive(Clone, Copy)]
pub struct State {
    pub blocks: u64,
    pub tones: u64,
    pub pending: Pending,
    pub body: Option<Body>,
}

// Why a reading halts: a refusal's number; or the piece of this kind at this place, a 2A, has a length that is not 0: a failure.
#[derive(Clone, Copy)]
pub enum Halt {
    Refusal(u32),
    Length { kind: u8, at: u64, length: u32 },
}

// Nothing read yet; the tables are blank.
pub fn new_state() -> State
    ensures { (B N : ℕ) → Holds B N result (zeros B) (zeros N) empty }
{
    State {
        blocks: 0,
        tones: 0,
        pending: Pending::Nothing,
        body: None,
    }
}

// A block with another name and selectable mark.
pub fn rename(selectable: u64, case: u64, text: u64, chars: u64, r: Block) -> Block
    ensures { result ≡ renamed selectable case text chars r }
{
    r.with_name(case, text, chars).with_mark(selectable)
}

// A block with the pending name.
fn take_name(p: Pending, r: Block) -> Block
    ensures { result ≡ named p r }
{
    match p {
        Pending::Nothing => r,
        Pending::First { text, chars } => rename(1, 3, text, chars, r),
        Pending::Later { text, chars } => rename(0, 4, text, chars, r),
        Pending::Text { text, chars } => rename(1, 2, text, chars, r),
    }
}

// What is pending once a block took the name.
fn after_use(p: Pending) -> Pending
    ensures { result ≡ used p }
{
    match p {
        Pending::Nothing => p,
        Pending::First { text, chars } => Pending::Later { text, chars },
        Pending::Later { .. } => p,
        Pending::Text { .. } => Pending::Nothing,
    }
}

// One tone row more.
pub fn add_tone(s: State, tones: &mut [u64], r: Tone) -> Result<State, Halt>
    ensures { (B N : ℕ) (bt : List ℕ) (t : Parsed) → Holds B N s bt tones.old t
        → GivesOut B N result bt tones.new (add_tones (tone_room N) (r ∷ []) t) }
{
    if append(tones, s.tones as usize, r) {
        Ok(State {
            tones: s.tones + 1,
            ..s
        })
    } else {
        Err(Halt::Refusal(TONES_FULL))
    }
}

// One block more, with the pending name.
pub fn add_block(s: State, blocks: &mut [u64], r: Block) -> Result<State, Halt>
    ensures { (B N : ℕ) (tt : List ℕ) (t : Parsed) → Holds B N s blocks.old tt t
        → GivesOut B N result blocks.new tt (add_block (block_room B) r t) }
{
    let p = s.pending;
    if append(blocks, s.blocks as usize, take_name(p, r)) {
        Ok(State {
            blocks: s.blocks + 1,
            pending: after_use(p),
            ..s
        })
    } else {
        Err(Halt::Refusal(BLOCKS_FULL))
    }
}
