// The blocks of pieces that have their tones in numbers: turbo data (11), a pure tone (12), pure data (14). The reading alone calls them.
#![tactic(auto)]

ghost use Rattle.std.specs.Prelude.{List, ℕ};
ghost use Rattle.load_blocks.specs.Sounds.{ms, add_sound};
ghost use Rattle.load_blocks.specs.Blocks.{turbo_sound, pure_sound, pure_tone_tones, tone_sound};
ghost use Rattle.load_blocks.specs.Does.{Does};

use cut_grammar::TurboData;
use load_blocks::{Bits, Origin, add_rows, bare_row, data_block};
use load_state::{Halt, State};
use play_times::tone_figure;
use rows::Tone;

// 11
#[tactic(auto, unfolding(load_blocks::specs::Blocks::turbo_tones, load_blocks::specs::Blocks::turbo_sound))]
pub fn turbo_data_block(
    tape: &[u8],
    s: State,
    blocks: &mut [u64],
    tones: &mut [u64],
    origin: Origin,
    d: TurboData,
) -> Result<State, Halt>
    ensures { Does (λ lent. add_sound lent tape.now origin (turbo_sound d)) s result blocks.old tones.old
        blocks.new tones.new }
{
    let pilot = Tone {
        num: (d.pilots as u64 + 1) / 2,
        len1: d.pilot as u64,
        len2: d.pilot as u64,
        wave: 0,
    };
    let sync = Tone {
        num: 1,
        len1: d.sync1 as u64,
        len2: d.sync2 as u64,
        wave: 0,
    };
    let bits = Bits {
        start: d.from,
        size: d.size as u64,
        zero: d.zero as u64,
        one: d.one as u64,
        last: d.last as u64,
    };
    let pause = d.pause as u64 * 3500;
    data_block(tape, s, blocks, tones, origin, pilot, sync, bits, pause)
}

// 14: `bits` are the row's, the pause is in ms.
#[tactic(auto, unfolding(load_blocks::specs::Blocks::pure_tones, load_blocks::specs::Blocks::pure_sound))]
pub fn pure_data_block(
    tape: &[u8],
    s: State,
    blocks: &mut [u64],
    tones: &mut [u64],
    origin: Origin,
    bits: Bits,
    pause: u32,
) -> Result<State, Halt>
    ensures { Does (λ lent. add_sound lent tape.now origin (pure_sound bits (ms pause))) s result blocks.old tones.old
        blocks.new tones.new }
{
    let pilot = Tone {
        num: 0,
        len1: 0,
        len2: 0,
        wave: 0,
    };
    let sync = Tone {
        num: 1,
        len1: 0,
        len2: 0,
        wave: 0,
    };
    data_block(
        tape,
        s,
        blocks,
        tones,
        origin,
        pilot,
        sync,
        bits,
        pause as u64 * 3500,
    )
}

// 12
pub fn pure_tone_block(
    s: State,
    blocks: &mut [u64],
    tones: &mut [u64],
    origin: Origin,
    half: u32,
    count: u32,
) -> Result<State, Halt>
    ensures { (tape : List ℕ) → Does (λ lent. add_sound lent tape origin (tone_sound (pure_tone_tones half count))) s result
        blocks.old tones.old blocks.new tones.new }
{
    let whole = Tone {
        num: (count / 2) as u64,
        len1: half as u64,
        len2: half as u64,
        wave: 0,
    };
    if count % 2 == 0 {
        let r = bare_row(origin, s.tones, 1, 0);
        let sound = tone_figure(r, whole);
        return add_rows(s, blocks, tones, &[whole], r.with_sound(sound));
    }
    let odd = Tone {
        num: 1,
        len1: 0,
        len2: half as u64,
        wave: 0,
    };
    let r = bare_row(origin, s.tones, 2, 0);
    let sound = tone_figure(r, odd) + tone_figure(r, whole);
    add_rows(s, blocks, tones, &[odd, whole], r.with_sound(sound))
}
