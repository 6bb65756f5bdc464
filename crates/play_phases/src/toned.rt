// A block's row whose tone rows are lent: what a row and its table have to say of one another is said once, in the type.
#![tactic(auto)]

ghost use Rattle.std.specs.Prelude.{◌≡◌, true, ◌+◌, ◌*◌, ◌<◌, ◌≤◌, length};
ghost use Rattle.rows.specs.Table.{capacity_of};
ghost use Rattle.rows.specs.Rows.{tone, tone_most};
ghost use Rattle.rows.specs.Well.{well_numbers};
ghost use Rattle.play_entries.specs.Entries.{tone_at};
ghost use Rattle.play_entries.specs.Places.{has_entry, length_at};

use crate::{bits_at, cycle_half, edge_time, half_of, has_pulse, is_edged, pause_of};
use play_entries::{Duration, Phase};
use rows::{Block, Tone, row_at};

// A tone table and a block's row, whose tone rows are all in it. That its data are lent and its numbers well formed is no part of the type:
// `has_entry` may ask no more than it did.
#[derive(Clone, Copy)]
pub struct TonedRow<'a> {
    pub tones: &'a [u64],
    pub row: Block,
    pub ghost lent: { row.tone + row.tones ≤ capacity_of tone tone_most tones.now },
}

impl TonedRow<'_> {
    // Its tone row i, which its callers know to be one of them.
    pub fn tone(&self, i: u64) -> Tone
        requires { i < self.now.row.tones }
        ensures { result ≡ tone_at self.now.tones.now self.now.row i }
    {
        row_at(self.tones, (self.row.tone + i) as usize)
    }

    // Whether the block has an entry of this phase.
    #[tactic(auto, unfolding(play_entries::specs::Places::has_entry))]
    pub fn has_entry(&self, f: Phase) -> bool
        ensures { result ≡ has_entry self.now.tones.now self.now.row f }
    {
        let r = self.row;
        match f {
            Phase::Start | Phase::Pause => true,
            Phase::Tones {
                index,
                pulse,
                last_half,
            } => index < r.tones && has_pulse(r, self.tone(index), pulse, last_half),
            Phase::Data { pos, bit, .. } => pos < r.size && bit < bits_at(r, pos),
            Phase::Edge => is_edged(r),
        }
    }

    // The length of the block's entry. Our crates alone call it: its data are lent, its numbers well formed, the entry one of it.
    #[tactic(auto, using(play_entries::proofs::Valid::tone_index, play_entries::proofs::Valid::byte_index, play_entries::proofs::Valid::bit_below), unfolding(play_entries::specs::Places::length_at))]
    pub fn length_at(&self, tape: &[u8], f: Phase) -> Duration
        requires size_in_bounds { self.now.row.start + self.now.row.size ≤ length tape.now }
        requires r_value { well_numbers self.now.row ≡ true }
        requires f_value { has_entry self.now.tones.now self.now.row f ≡ true }
        ensures { result ≡ length_at tape.now self.now.tones.now self.now.row f }
    {
        let r = self.row;
        match f {
            Phase::Start => Duration::T(0),
            Phase::Tones {
                index,
                last_half,
                ..
            } => Duration::T(cycle_half(self.tone(index), last_half)),
            Phase::Data { pos, bit, .. } => {
                let at = (r.start + pos) as usize;
                Duration::T(half_of(tape[at], bit, r))
            }
            Phase::Edge => Duration::T(edge_time(r)),
            Phase::Pause => pause_of(r),
        }
    }
}
