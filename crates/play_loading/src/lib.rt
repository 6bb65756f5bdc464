// Times by the rows' own words: what a row lasts, and the loading time, summed up a row at a time, for the queries and for the listing.
#![tactic(auto)]

ghost use Rattle.std.specs.Prelude.{◌≡◌, true, ◌^◌, ◌<◌};
ghost use Rattle.rows.specs.Well.{well_numbers};
ghost use Rattle.play_entries.specs.Stored.{row_lasts};
ghost use Rattle.play_loading.specs.Sums.{no_loading, end_with, one_more};

use play_entries::Duration;
use rows::Block;

// What a row lasts: its sound and its pause, or that it never ends. Its callers know both to be within their limits.
#[tactic(auto, using(crate::proofs::Ending::pause_fits), unfolding(play_entries::specs::Stored::row_lasts))]
pub fn row_lasts(r: Block) -> Duration
    requires { (r.sound < 2 ^ 50) × (well_numbers r ≡ true) }
    ensures { result ≡ row_lasts r }
{
    if r.endless == 1 {
        Duration::Endless
    } else {
        Duration::T(r.sound + r.pause)
    }
}

// What is summed up so far: the T-states of all rows before the first stop, where the last sound ended, and whether a stop was met.
// The flag is no Option of a sum: both sums are read behind a stop too.
#[derive(Clone, Copy, Default)]
pub struct Loading {
    pub sum: u64,
    pub end: u64,
    pub over: bool,
}

// Before the first row.
pub fn none() -> Loading
    ensures { result ≡ no_loading }
{
    Loading::default()
}

// Where the last sound ends, a row's included: a sound of no length is no end.
fn end_with(s: Loading, sound: u64) -> u64
    requires { (s.sum < 2 ^ 63) × (sound < 2 ^ 50) }
    ensures { result ≡ end_with s sound }
{
    if 0 < sound { s.sum + sound } else { s.end }
}

// One row more: what stands behind a stop isn't counted. Its callers know the row's words to be within their limits.
#[tactic(auto, using(crate::proofs::Ending::pause_fits), unfolding(crate::specs::Sums::one_more))]
pub fn one_more(s: Loading, r: Block) -> Loading
    requires sum_bound { (s.sum < 2 ^ 63) × (r.sound < 2 ^ 50) }
    requires r_value { well_numbers r ≡ true }
    ensures { result ≡ one_more s r }
{
    if s.over {
        return s;
    }
    let end = end_with(s, r.sound);
    if r.endless == 1 {
        return Loading {
            end,
            over: true,
            ..s
        };
    }
    let sum = s.sum + r.sound + r.pause;
    Loading {
        sum,
        end,
        over: false,
    }
}
