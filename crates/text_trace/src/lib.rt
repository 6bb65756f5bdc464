// The text of a call's answer, a line each, as a trace prints it; where the head is left is in `place`.
#![tactic(auto)]

mod place;

ghost use Rattle.std.specs.Prelude.{◌+◌, ◌^◌, ◌<◌};
ghost use Rattle.text_out.specs.Writes.{Writes};
ghost use Rattle.text_trace.specs.Lines.{selected_text, stand_line, passed_line, source_line};
ghost use Rattle.text_trace.specs.Lines.{how_text, measured_line, line_of};

use place::put_place;
use play_walk::{Fault, How, Reached, Stand};
use text_out::Writer;

// The block that it is shown under.
#[tactic(auto, unfolding(crate::specs::Lines::selected_text))]
fn put_selected(w: &mut Writer<'_>, b: Result<u64, Fault>)
    requires { w.old.at + 32 < 2 ^ 63 }
    ensures { Writes w.old (selected_text b) w.new }
{
    match b {
        Ok(n) => w.decimal(n),
        Err(f) => w.refused(f.number()),
    }
}

// Both, to the end of the line.
#[tactic(auto, using(text_out::proofs::Writing::composed, crate::proofs::Lengths::shown_parts), unfolding(crate::specs::Lines::stand_line))]
fn put_shown(w: &mut Writer<'_>, s: Stand, b: Result<u64, Fault>)
    requires { w.old.at + 160 < 2 ^ 63 }
    ensures { Writes w.old (stand_line s b) w.new }
{
    put_place(w, s);
    w.bytes(b" selected ");
    put_selected(w, b);
    w.byte(b'\n');
}

// A line of the source's play.
#[tactic(auto, unfolding(crate::specs::Lines::source_line, crate::specs::Lines::came_line))]
fn put_source(w: &mut Writer<'_>, answer: Result<Reached, Fault>, b: Result<u64, Fault>)
    requires { w.old.at + 160 < 2 ^ 63 }
    ensures { Writes w.old (source_line answer b) w.new }
{
    match answer {
        Ok(a) => match a.how {
            How::At | How::Stopped => put_shown(w, a.stand, b),
            How::Ended => w.bytes(b"ended\n"),
        },
        Err(f) => w.refused_line(f.number()),
    }
}

// How the measured player came there.
#[tactic(auto, unfolding(crate::specs::Lines::how_text))]
fn put_how(w: &mut Writer<'_>, how: How)
    requires { w.old.at + 7 < 2 ^ 63 }
    ensures { Writes w.old (how_text how) w.new }
{
    match how {
        How::At => w.bytes(b"stands"),
        How::Stopped => w.bytes(b"stopped"),
        How::Ended => w.bytes(b"ended"),
    }
}

// The entries passed, then where the head is.
#[tactic(auto, using(text_out::proofs::Writing::composed), unfolding(crate::specs::Lines::passed_line))]
fn put_told(w: &mut Writer<'_>, s: Stand, b: Result<u64, Fault>)
    requires { w.old.at + 200 < 2 ^ 63 }
    ensures { Writes w.old (passed_line s b) w.new }
{
    w.said(b" passed ", s.passed);
    w.bytes(b" at ");
    put_shown(w, s, b);
}

// A line of the measured player.
#[tactic(auto, using(text_out::proofs::Writing::composed, crate::proofs::Lengths::how_length), unfolding(crate::specs::Lines::measured_line))]
fn put_measured(w: &mut Writer<'_>, answer: Result<Reached, Fault>, b: Result<u64, Fault>)
    requires { w.old.at + 240 < 2 ^ 63 }
    ensures { Writes w.old (measured_line answer b) w.new }
{
    match answer {
        Ok(a) => {
            put_how(w, a.how);
            put_told(w, a.stand, b);
        }
        Err(f) => w.refused_line(f.number()),
    }
}

// The line of a call's answer, and of the block then shown, of the measured player or of the source's play.
// Our crates alone call it: the place is far from overflow.
#[tactic(auto, unfolding(crate::specs::Lines::line_of))]
pub fn put_line(
    w: &mut Writer<'_>,
    measured: bool,
    answer: Result<Reached, Fault>,
    b: Result<u64, Fault>,
)
    requires { w.old.at + 256 < 2 ^ 63 }
    ensures { Writes w.old (line_of measured answer b) w.new }
{
    if measured {
        put_measured(w, answer, b);
    } else {
        put_source(w, answer, b);
    }
}
