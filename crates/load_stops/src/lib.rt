// The blocks without tones: a pause (20), a stop, a stop on the 48K (2A). The reading, and a 19 that stops, alone call them.
#![tactic(auto)]

ghost use Rattle.std.specs.Prelude.{List, ℕ};
ghost use Rattle.load_blocks.specs.Sounds.{add_sound};
ghost use Rattle.load_blocks.specs.Blocks.{stop_sound, pause_sound};
ghost use Rattle.load_blocks.specs.Deeds.{does, stop48_deed};
ghost use Rattle.load_blocks.specs.Does.{Does};

use load_blocks::{Origin, bare_row, no_tone, stop_row};
use load_state::{Halt, State};

// 20
pub fn pause_block(s: State, blocks: &mut [u64], origin: Origin, pause: u32) -> Result<State, Halt>
    ensures { (tape tt : List ℕ)
        → Does (λ lent. add_sound lent tape origin (pause_sound pause)) s result blocks.old tt blocks.new tt }
{
    if pause == 0 {
        return no_tone(s, blocks, stop_row(origin, s.tones));
    }
    no_tone(s, blocks, bare_row(origin, s.tones, 0, pause as u64 * 3500))
}

// A stop block.
pub fn stop_block(s: State, blocks: &mut [u64], origin: Origin) -> Result<State, Halt>
    ensures { (tape tt : List ℕ) → Does (λ lent. add_sound lent tape origin stop_sound) s result blocks.old tt blocks.new tt }
{
    no_tone(s, blocks, stop_row(origin, s.tones))
}

// 2A of a length: an error but for 0; then a stop block on the 48K, nothing on the others.
#[tactic(auto, using(crate::proofs::On48::stops_on_48))]
pub fn stop_on_48(
    model: u32,
    s: State,
    blocks: &mut [u64],
    origin: Origin,
    length: u32,
) -> Result<State, Halt>
    ensures { (tape tt : List ℕ)
        → Does (λ lent. does lent tape model origin (stop48_deed length)) s result blocks.old tt blocks.new tt }
{
    if length != 0 {
        return Err(Halt::Length {
            kind: origin.kind,
            at: origin.place,
            length,
        });
    }
    if model == 0 {
        return stop_block(s, blocks, origin);
    }
    Ok(s)
}
