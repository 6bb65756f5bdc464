// The public load: a tape read as TZX, and where that fails as TAP, into the lent tables; then the naming pass.
#![tactic(auto)]

ghost use Rattle.std.specs.Prelude.{◌≡◌, length};
ghost use Rattle.load_source.specs.Source.{or_tap, read_tap, load_of};
ghost use Rattle.load_blocks.specs.Does.{lent_of};
ghost use Rattle.load_tape.specs.Load.{Leaves, load_named, not_loaded, not_loaded_no};

use load_select::name_blocks;
use load_source::{Failure, NotRead, read_tap, read_tzx};
use refusals::{BAD_MODEL, TAPE_BAD, TAPE_LONG};
use rows::blank;

#[derive(Clone, Copy, PartialEq, Eq)]
pub enum Format {
    Tap,
    Tzx,
}

// A loaded tape: its format, how many blocks and tone rows it has.
#[derive(Clone, Copy)]
pub struct Loaded {
    pub format: Format,
    pub blocks: u64,
    pub tones: u64,
}

// Why none is loaded: refusal 3 with what the two attempts met, or any other refusal's number alone.
#[derive(Clone, Copy)]
pub enum NotLoaded {
    Unread { tzx: Failure, tap: Failure },
    Refused(u32),
}

impl NotLoaded {
    // Its number for no.
    pub fn number(self) -> u32
        ensures { result ≡ not_loaded_no self }
    {
        match self {
            NotLoaded::Unread { .. } => TAPE_BAD,
            NotLoaded::Refused(k) => k,
        }
    }
}

// A refusal leaves both tables all zero.
fn refuse(blocks: &mut [u64], tones: &mut [u64], why: NotLoaded) -> Result<Loaded, NotLoaded>
    ensures { Leaves (length blocks.old) (length tones.old) (not_loaded why) result blocks.new tones.new }
{
    blank(blocks);
    blank(tones);
    Err(why)
}

// The bytes as TAP, whatever the tables held; the attempt as TZX met `tzx`.
fn load_tap(
    tape: &[u8],
    blocks: &mut [u64],
    tones: &mut [u64],
    tzx: Failure,
) -> Result<Loaded, NotLoaded>
    ensures { Leaves (length blocks.old) (length tones.old)
        (or_tap tzx (read_tap (lent_of (length blocks.old) (length tones.old)) tape.now)) result blocks.new
        tones.new }
{
    blank(blocks);
    blank(tones); // the reading as TZX may have written rows
    match read_tap(tape, blocks, tones) {
        Ok(s) => Ok(Loaded {
            format: Format::Tap,
            blocks: s.blocks,
            tones: s.tones,
        }),
        Err(NotRead::Failed(tap)) => refuse(blocks, tones, NotLoaded::Unread { tzx, tap }),
        Err(NotRead::Refused(k)) => refuse(blocks, tones, NotLoaded::Refused(k)),
    }
}

// The bytes read, before the naming pass.
#[tactic(auto, using(crate::proofs::Leaving::load_of_model, crate::proofs::Leaving::load_of_long))]
fn read(tape: &[u8], model: u32, blocks: &mut [u64], tones: &mut [u64]) -> Result<Loaded, NotLoaded>
    ensures { Leaves (length blocks.old) (length tones.old)
        (load_of (lent_of (length blocks.old) (length tones.old)) tape.now model) result blocks.new
        tones.new }
{
    if 3 <= model {
        return refuse(blocks, tones, NotLoaded::Refused(BAD_MODEL));
    }
    if 1048576 < tape.len() {
        return refuse(blocks, tones, NotLoaded::Refused(TAPE_LONG));
    }
    blank(blocks);
    blank(tones);
    match read_tzx(tape, model, blocks, tones) {
        Ok(s) => Ok(Loaded {
            format: Format::Tzx,
            blocks: s.blocks,
            tones: s.tones,
        }),
        Err(NotRead::Failed(f)) => load_tap(tape, blocks, tones, f),
        Err(NotRead::Refused(j)) => refuse(blocks, tones, NotLoaded::Refused(j)),
    }
}

// Model 0 is the 48K, 1 the 128K, 2 the Plus3: a number down to the one place that asks for it, as C and `does` have it.
pub fn load(
    tape: &[u8],
    model: u32,
    blocks: &mut [u64],
    tones: &mut [u64],
) -> Result<Loaded, NotLoaded>
    ensures { Leaves (length blocks.old) (length tones.old)
        (load_named (lent_of (length blocks.old) (length tones.old)) tape.now model) result blocks.new
        tones.new }
{
    let loaded = read(tape, model, blocks, tones)?;
    name_blocks(tape, blocks, loaded.blocks as usize);
    Ok(loaded)
}
