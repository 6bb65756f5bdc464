// Positions, and the measured walk over a tape's entries, which both players stand on.
#![tactic(auto)]

ghost use Rattle.std.specs.Prelude.{◌≡◌, false, ◌≤◌};
ghost use Rattle.rows.specs.Table.{capacity_of};
ghost use Rattle.rows.specs.Rows.{block, block_most};
ghost use Rattle.play_entries.specs.Places.{level_in};
ghost use Rattle.play_voice.specs.Voice.{ToldSeen, Standing};
ghost use Rattle.play_entries.specs.Source.{level_of};
ghost use Rattle.play_entries.specs.Mounted.{mounted_tape};
ghost use Rattle.play_walk.specs.Heads.{placed, start_at, stand, arrived, how_left, fault_no, rest_level, next_of, Walkable, walk_from, Lands};
ghost use Rattle.play_walk.specs.declared.How.TheVariants.{Ended};

use play_entries::{Duration, Mounted, Phase};
use play_phases::{TonedRow, mic};
use play_steps::take;
use play_voice::{Heard, level_in, start_level};
use refusals::{BAD_ROW, NO_POSITION};

// Where a head stands: its block, its entry there, and what is left of it; the Rust's `TapePos`.
#[derive(Clone, Copy, PartialEq, Eq)]
pub struct Position {
    pub block: u64,
    pub phase: Phase,
    pub left: Duration,
}

impl Position {
    // A block's first entry.
    pub const START: Phase = Phase::Start;

    // The block number that stands for past the end.
    pub const PAST_END: u64 = 4_294_967_295;

    pub fn new_at_block(block: u64) -> Position
        ensures { result ≡ start_at block }
    {
        Position {
            block,
            phase: Position::START,
            left: Duration::T(0),
        }
    }

    // The level there, of a source row.
    pub fn mic(self) -> bool
        ensures { result ≡ level_of self.phase }
    {
        mic(self.phase)
    }

    pub fn real_block(self) -> u64
        ensures { result ≡ self.block }
    {
        self.block
    }

    pub fn position(self) -> Phase
        ensures { result ≡ self.phase }
    {
        self.phase
    }
}

// Where a call leaves the head: its position, the entries passed and the level there.
#[derive(Clone, Copy, PartialEq, Eq)]
pub struct Stand {
    pub position: Position,
    pub passed: u64,
    pub level: bool,
}

// How a call comes out: the head stands at an entry, has stopped at an endless pause, or the tape has ended.
#[derive(Clone, Copy, PartialEq, Eq)]
pub enum How {
    At,
    Stopped,
    Ended,
}

// A player's answer where the call isn't refused.
#[derive(Clone, Copy, PartialEq, Eq)]
pub struct Reached {
    pub how: How,
    pub stand: Stand,
}

impl Reached {
    // The head at a position, of this level: stopped where its entry never ends.
    pub fn here(position: Position, passed: u64, level: bool) -> Reached
        ensures { result ≡ arrived (how_left position.left) (stand position passed level) }
    {
        let how = match position.left {
            Duration::T(_) => How::At,
            Duration::Endless => How::Stopped,
        };
        Reached {
            how,
            stand: Stand {
                position,
                passed,
                level,
            },
        }
    }

    // The tape has ended: the head rests at the count's start.
    pub fn end(count: u64, passed: u64) -> Reached
        ensures { result ≡ arrived Ended (stand (start_at count) passed false) }
    {
        Reached {
            how: How::Ended,
            stand: Stand {
                position: Position::new_at_block(count),
                passed,
                level: false,
            },
        }
    }
}

// Why a call or a query with a position is refused: the position is not valid, or a row is not well formed or the count over the capacity.
#[derive(Clone, Copy, PartialEq, Eq)]
pub enum Fault {
    NotValid,
    NotFormed,
}

impl Fault {
    // The number for no.
    pub fn number(self) -> u32
        ensures { result ≡ fault_no self }
    {
        match self {
            Fault::NotValid => NO_POSITION,
            Fault::NotFormed => BAD_ROW,
        }
    }
}

// The head in this entry, which its callers know to be one of a block whose row and tone rows are lent.
fn stands(
    m: &Mounted<'_>,
    block: u64,
    phase: Phase,
    left: Duration,
    passed: u64,
    h: Heard,
) -> Reached
    requires standing { Standing m.now.tones.now m.now.blocks.now block phase }
    requires told_seen { ToldSeen m.now.tones.now m.now.blocks.now h }
    ensures { result
        ≡ arrived (how_left left)
        (stand (placed block phase left) passed (level_in (mounted_tape m.now) block phase)) }
{
    let position = Position { block, phase, left };
    Reached::here(position, passed, level_in(m, block, phase, h))
}

// The level at block b's start, where a head comes to rest; its callers know the rows up to the count to be lent.
#[tactic(auto, unfolding(crate::specs::Heads::rest_level))]
pub fn rest_level(m: &Mounted<'_>, b: u64) -> bool
    requires { (b ≤ m.now.count) × (m.now.count ≤ capacity_of block block_most m.now.blocks.now) }
    ensures { result ≡ rest_level (mounted_tape m.now) b }
{
    b < m.count && start_level(m.row(b))
}

// At the start of block b with these T-states left: none where the walk goes into it, or the answer where it leaves;
// its callers know the rows up to the count to be lent, and b to be at most the count.
#[tactic(auto, unfolding(crate::specs::Heads::next_of))]
fn next_block(m: &Mounted<'_>, b: u64, left: u64, passed: u64) -> Option<Result<Reached, Fault>>
    requires { (b ≤ m.now.count) × (m.now.count ≤ capacity_of block block_most m.now.blocks.now) }
    ensures { result ≡ next_of (mounted_tape m.now) b left passed }
{
    if left == 0 {
        let start = Position::new_at_block(b);
        return Some(Ok(Reached::here(start, passed, rest_level(m, b))));
    }
    if b == m.count {
        return Some(Ok(Reached::end(b, passed)));
    }
    if m.row_well(b) {
        return None;
    }
    Some(Err(Fault::NotFormed))
}

// The measured walk of n T-states from a position known to be valid, below the count, in a well-formed row; h: rows gone through already.
// No `for` over the blocks: the first one is entered in its middle, and whether the next is entered the walk of this one tells.
pub fn walk(m: &Mounted<'_>, pos: Position, n: u64, h: Heard) -> Result<Reached, Fault>
    requires walkable { Walkable (mounted_tape m.now) pos }
    requires told_seen { ToldSeen m.now.tones.now m.now.blocks.now h }
    ensures value { result ≡ walk_from (mounted_tape m.now) pos n }
    ensures lands { Lands (mounted_tape m.now) result }
{
    let mut block = pos.block;
    let mut phase = pos.phase;
    let mut left = pos.left;
    let mut full = false;
    let mut d = n;
    let mut passed: u64 = 0;
    'blocks: loop {
        let x = TonedRow {
            tones: m.tones,
            row: m.row(block),
        };
        'entries: loop {
            let Duration::T(t) = left else {
                break 'blocks Ok(stands(m, block, phase, left, passed, h));
            };
            if d == 0 || d < t {
                break 'blocks Ok(stands(m, block, phase, Duration::T(t - d), passed, h));
            }
            let s = take(m.tape, &x, phase, full, t, d);
            d -= s.time;
            passed += s.passed;
            let Some(f) = s.phase else {
                break 'entries;
            };
            phase = f;
            left = x.length_at(m.tape, f);
            full = true;
        }
        block += 1;
        if let Some(answer) = next_block(m, block, d, passed) {
            break 'blocks answer;
        }
        phase = Phase::Start;
        left = Duration::T(0);
        full = true;
    }
}
