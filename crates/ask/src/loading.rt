// The query of the loading time.
ghost use Rattle.std.specs.Prelude.{◌≡◌};
ghost use Rattle.play_entries.specs.Mounted.{mounted_tape};
ghost use Rattle.ask.specs.Queries.{loading_of};

use play_entries::Mounted;
use play_loading::{none, one_more};
use refusals::Refusal;

// The time up to the end of the last sound before the first stop or the end, by the rows' words.
pub fn loading_time(m: &Mounted<'_>) -> Result<u64, Refusal>
    ensures { result ≡ loading_of (mounted_tape m.now) }
{
    if m.is_overfull() {
        return Err(Refusal::BadRow);
    }
    let mut s = none();
    for b in 0..m.count {
        if !m.row_well(b) {
            return Err(Refusal::BadRow);
        }
        s = one_more(s, m.row(b));
        if s.over {
            return Ok(s.end);
        }
    }
    Ok(s.end)
}
