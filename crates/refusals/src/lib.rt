// THE NUMBERS FOR NO, each under its name: the number that code answers with.
// README.md has what each means; include/glyvrask.h has them for C.
#![tactic(auto)]

ghost use Rattle.std.specs.Prelude.{◌≡◌};
ghost use Rattle.refusals.specs.Refusals.{number};

// A refusal. Its number is its place in this list.
#[derive(Clone, Copy, Debug, PartialEq, Eq)]
pub enum Refusal {
    // Model is not 0 (48K), 1 (128K), 2 (Plus3).
    BadModel = 1,
    // Tape over 1,048,576 bytes (in the listing, over 65,535).
    TapeLong = 2,
    // TZX and TAP reading both err.
    TapeBad = 3,
    // A generalised piece on which the Rust panics.
    Generalised = 4,
    // A block needs more tone rows than remain.
    TonesFull = 5,
    // More block rows than remain.
    BlocksFull = 6,
    // TZX was read whole, but a block with data has last bits above 8.
    LastBits = 7,
    // Block number not below the count.
    NoBlock = 8,
    // Position not valid on this tape, or words that name no position.
    NoPosition = 9,
    // Output buffer shorter than the text, or the answer's row shorter than its values.
    NoRoom = 10,
    // A needed row is not well formed, or the count exceeds capacity.
    BadRow = 11,
}

impl Refusal {
    pub fn number(self) -> u32
        ensures { result ≡ number self }
    {
        self as u32
    }
}

// Model is not 0 (48K), 1 (128K), 2 (Plus3).
pub const BAD_MODEL: u32 = 1;

// Tape over 1,048,576 bytes (in the listing, over 65,535).
pub const TAPE_LONG: u32 = 2;

// TZX and TAP reading both err.
pub const TAPE_BAD: u32 = 3;

// A generalised piece on which the Rust panics.
pub const GENERALISED: u32 = 4;

// A block needs more tone rows than remain.
pub const TONES_FULL: u32 = 5;

// More block rows than remain.
pub const BLOCKS_FULL: u32 = 6;

// TZX was read whole, but a block with data has last bits above 8.
pub const LAST_BITS: u32 = 7;

// Block number not below the count.
pub const NO_BLOCK: u32 = 8;

// Position not valid on this tape, or words that name no position.
pub const NO_POSITION: u32 = 9;

// Output buffer shorter than the text, or the answer's row shorter than its values.
pub const NO_ROOM: u32 = 10;

// A needed row is not well formed, or the count exceeds capacity.
pub const BAD_ROW: u32 = 11;
