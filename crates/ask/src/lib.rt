// The queries of a mounted tape: what each answers, its refusals, the count, and of a block its size, mark and time.
#![tactic(auto)]

mod loading;
mod naming;

ghost use Rattle.std.specs.Prelude.{◌≡◌, List, ℕ};
ghost use Rattle.play_entries.specs.Mounted.{tape_of, mounted_tape};
ghost use Rattle.ask.specs.Queries.{asked, len_of, size_of, selectable_of, time_of};

pub use loading::loading_time;
pub use naming::block_name;
use play_entries::{Duration, Mounted};
use play_loading::row_lasts;
use refusals::Refusal;
use rows::{Block, capacity};

// How many blocks the tape has.
#[tactic(auto, unfolding(crate::specs::Queries::len_of))]
pub fn len(blocks: &[u64], count: u64) -> Result<u64, Refusal>
    ensures { (bytes tones : List ℕ) → result ≡ len_of (tape_of bytes tones blocks.now count) }
{
    if (capacity::<Block>(blocks) as u64) < count {
        Err(Refusal::BadRow)
    } else {
        Ok(count)
    }
}

// The row of block i; or the refusal of a query about it, in the order of rule 36.
#[tactic(auto, unfolding(crate::specs::Queries::asked))]
pub fn asked(m: &Mounted<'_>, i: u64) -> Result<Block, Refusal>
    ensures { result ≡ asked (mounted_tape m.now) i }
{
    if m.is_overfull() {
        return Err(Refusal::BadRow);
    }
    if m.count <= i {
        return Err(Refusal::NoBlock);
    }
    if m.row_well(i) {
        Ok(m.row(i))
    } else {
        Err(Refusal::BadRow)
    }
}

// A block's data size.
#[tactic(auto, unfolding(crate::specs::Queries::size_of, crate::specs::Queries::told_of))]
pub fn block_size(m: &Mounted<'_>, i: u64) -> Result<u64, Refusal>
    ensures { result ≡ size_of (mounted_tape m.now) i }
{
    let r = asked(m, i)?;
    Ok(r.size)
}

// Its selectable mark.
#[tactic(auto, unfolding(crate::specs::Queries::selectable_of, crate::specs::Queries::told_of))]
pub fn block_selectable(m: &Mounted<'_>, i: u64) -> Result<bool, Refusal>
    ensures { result ≡ selectable_of (mounted_tape m.now) i }
{
    let r = asked(m, i)?;
    Ok(r.selectable == 1)
}

// Its T-states with its pause by its row's words, or that it never ends.
#[tactic(auto, unfolding(crate::specs::Queries::time_of, crate::specs::Queries::told_of))]
pub fn block_time(m: &Mounted<'_>, i: u64) -> Result<Duration, Refusal>
    ensures { result ≡ time_of (mounted_tape m.now) i }
{
    let r = asked(m, i)?;
    Ok(row_lasts(r))
}
