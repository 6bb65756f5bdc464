// The text of a place: where a call leaves the head.
ghost use Rattle.std.specs.Prelude.{◌+◌, ◌^◌, ◌<◌};
ghost use Rattle.text_out.specs.Writes.{Writes};
ghost use Rattle.text_trace.specs.Places.{numbers, phase_text, left_text, place_text};

use play_entries::{Duration, Phase};
use play_walk::Stand;
use text_out::Writer;
use text_value::{put_duration, put_flag};

// The numbers of a cycle's half, or of a bit's.
#[tactic(auto, using(text_out::proofs::Writing::composed), unfolding(crate::specs::Places::numbers, crate::specs::Places::spaced))]
fn put_numbers(w: &mut Writer<'_>, n: u64, m: u64, last: bool)
    requires { w.old.at + 64 < 2 ^ 63 }
    ensures { Writes w.old (numbers n m last) w.new }
{
    w.said(b" ", n);
    w.said(b" ", m);
    w.byte(b' ');
    put_flag(w, last);
}

// Where an entry stands in its block.
#[tactic(auto, using(text_out::proofs::Writing::composed), unfolding(crate::specs::Places::phase_text))]
fn put_phase(w: &mut Writer<'_>, f: Phase)
    requires { w.old.at + 72 < 2 ^ 63 }
    ensures { Writes w.old (phase_text f) w.new }
{
    match f {
        Phase::Start => w.bytes(b"start"),
        Phase::Tones {
            index,
            pulse,
            last_half,
        } => {
            w.bytes(b"tone");
            put_numbers(w, index, pulse, last_half);
        }
        Phase::Data {
            pos,
            bit,
            last_half,
        } => {
            w.bytes(b"data");
            put_numbers(w, pos, bit, last_half);
        }
        Phase::Edge => w.bytes(b"edge"),
        Phase::Pause => w.bytes(b"pause"),
    }
}

// What is left, and the level.
#[tactic(auto, using(text_out::proofs::Writing::composed, text_value::proofs::Lengths::duration_length), unfolding(crate::specs::Places::left_text))]
fn put_rest(w: &mut Writer<'_>, left: Duration, level: bool)
    requires { w.old.at + 40 < 2 ^ 63 }
    ensures { Writes w.old (left_text left level) w.new }
{
    w.bytes(b" left ");
    put_duration(w, left);
    w.bytes(b" level ");
    put_flag(w, level);
}

// Where a call leaves the head.
#[tactic(auto, using(text_out::proofs::Writing::composed, crate::proofs::PlaceLengths::phase_length), unfolding(crate::specs::Places::place_text))]
pub(crate) fn put_place(w: &mut Writer<'_>, s: Stand)
    requires { w.old.at + 128 < 2 ^ 63 }
    ensures { Writes w.old (place_text s) w.new }
{
    let q = s.position;
    w.decimal(q.block);
    w.byte(b' ');
    put_phase(w, q.phase);
    put_rest(w, q.left, s.level);
}
