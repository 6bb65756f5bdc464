// The numbers of a view's line, up to the name, written into lent bytes. Our programs alone call it.
ghost use Rattle.std.specs.Prelude.{◌+◌, ◌^◌, ◌<◌, eqb};
ghost use Rattle.text_out.specs.Writes.{Writes};
ghost use Rattle.play_entries.specs.Entries.{whole_pause};
ghost use Rattle.text_view.specs.Dump.{sel_text, bits_text, end_text, head_text};

use play_entries::Duration;
use play_phases::whole_pause;
use rows::Block;
use text_out::Writer;
use text_value::{put_duration, put_flag};

// A block's number and mark.
#[tactic(auto, using(text_out::proofs::Writing::composed), unfolding(crate::specs::Dump::sel_text))]
fn put_mark(w: &mut Writer<'_>, i: u64, selectable: bool)
    requires { w.old.at + 26 < 2 ^ 63 }
    ensures { Writes w.old (sel_text i selectable) w.new }
{
    w.decimal(i);
    w.bytes(b" sel=");
    put_flag(w, selectable);
}

// The lengths of its bits.
#[tactic(auto, using(text_out::proofs::Writing::composed), unfolding(crate::specs::Dump::bits_text, crate::specs::Dump::field))]
fn put_bits(w: &mut Writer<'_>, zero: u64, one: u64, last: u64)
    requires { w.old.at + 77 < 2 ^ 63 }
    ensures { Writes w.old (bits_text zero one last) w.new }
{
    w.said(b" zero=", zero);
    w.said(b" one=", one);
    w.said(b" last=", last);
}

// Its pause, and the name's word.
#[tactic(auto, using(text_out::proofs::Writing::composed, text_value::proofs::Lengths::duration_length), unfolding(crate::specs::Dump::end_text))]
fn put_end(w: &mut Writer<'_>, pause: Duration)
    requires { w.old.at + 33 < 2 ^ 63 }
    ensures { Writes w.old (end_text pause) w.new }
{
    w.bytes(b" pause=");
    put_duration(w, pause);
    w.bytes(b" name=");
}

// The line's numbers, up to the name.
#[tactic(auto, using(text_out::proofs::Writing::composed, crate::proofs::Parts::mark_length, crate::proofs::Parts::bits_length), unfolding(crate::specs::Dump::head_text))]
pub fn put_head(w: &mut Writer<'_>, i: u64, r: Block)
    requires { w.old.at + 136 < 2 ^ 63 }
    ensures { Writes w.old
        (head_text i (eqb r.selectable 1) r.zero r.one r.last (whole_pause r)) w.new }
{
    put_mark(w, i, r.selectable == 1);
    put_bits(w, r.zero, r.one, r.last);
    put_end(w, whole_pause(r));
}
