// A listing's lines: a block's row as text, and all rows with the loading time.
#![tactic(auto)]

mod page;
mod shown;

ghost use Rattle.std.specs.Prelude.{◌≡◌, List, ℕ, ◌+◌, ◌^◌, ◌<◌, ◌≤◌, length, eqb};
ghost use Rattle.text_out.specs.Writes.{Writes};
ghost use Rattle.rows.specs.Table.{get};
ghost use Rattle.rows.specs.Rows.{block};
ghost use Rattle.play_entries.specs.Stored.{rows_time};
ghost use Rattle.play_entries.specs.Mounted.{tape_of};
ghost use Rattle.play_loading.specs.Sums.{one_more};
ghost use Rattle.text_name.specs.Names.{name_of};
ghost use Rattle.text_listing.specs.Shown.{shown};
ghost use Rattle.text_listing.specs.Inner.{row_head_text, row_tail_text, ReadyRow, Ready};
ghost use Rattle.text_listing.specs.Lines.{mark_text, row_text, rows_text};

pub use page::put_listing;
use play_entries::Duration;
use play_loading::{Loading, none, one_more, row_lasts};
use rows::{Block, row_at};
use shown::put_shown;
use text_out::Writer;
use text_value::put_lasts;

// A block's name as it is shown; its callers know that 512 bytes hold it.
fn put_name(w: &mut Writer<'_>, tape: &[u8], r: Block)
    requires size_in_bounds { (r.start + r.size ≤ length tape.now) × (r.text + r.chars ≤ length tape.now) }
    requires chars_bound { r.chars ≤ 1048576 }
    requires r_len_bound { length (name_of tape.now r) ≤ 510 }
    requires at_bound { w.old.at + 510 < 2 ^ 63 }
    ensures { Writes w.old (shown (name_of tape.now r)) w.new }
{
    let mut bytes = [0u8; 512];
    let mut name = Writer::over(&mut bytes);
    text_name::put_name(&mut name, tape, r);
    let n = name.at;
    put_shown(w, &name.out[..n]);
}

// A star for a selectable block.
#[tactic(auto, unfolding(crate::specs::Lines::mark_text))]
fn put_mark(w: &mut Writer<'_>, selectable: u64)
    requires { w.old.at + 1 < 2 ^ 63 }
    ensures { Writes w.old (mark_text (eqb selectable 1)) w.new }
{
    w.byte(if selectable == 1 { b'*' } else { b'-' });
}

// A row's number, mark and data size.
#[tactic(auto, using(text_out::proofs::Writing::composed, crate::proofs::Texts::mark_most))]
fn put_head(w: &mut Writer<'_>, i: u64, r: Block)
    requires { w.old.at + 64 < 2 ^ 63 }
    ensures { Writes w.old (row_head_text i r) w.new }
{
    w.decimal(i);
    w.byte(b' ');
    put_mark(w, r.selectable);
    w.byte(b' ');
    w.decimal(r.size);
    w.byte(b' ');
}

// Its T-states and its name, which its callers know to be short, and to lie in the tape.
#[tactic(auto, using(text_out::proofs::Writing::composed, crate::proofs::Texts::parts_most), unfolding(crate::specs::Lines::time_text))]
fn put_tail(w: &mut Writer<'_>, tape: &[u8], r: Block, d: Duration)
    requires size_in_bounds { (r.start + r.size ≤ length tape.now) × (r.text + r.chars ≤ length tape.now) }
    requires chars_bound { r.chars ≤ 1048576 }
    requires r_len_bound { length (name_of tape.now r) ≤ 510 }
    requires at_bound { w.old.at + 600 < 2 ^ 63 }
    ensures { Writes w.old (row_tail_text d (name_of tape.now r)) w.new }
{
    put_lasts(w, d, b"stop");
    w.byte(b' ');
    put_name(w, tape, r);
    w.byte(b'\n');
}

// The line of row i, which its callers know to be ready, and the loading time with that row summed up; the tape's count and its tone rows
// are no matter.
#[tactic(auto, using(text_out::proofs::Writing::composed, crate::proofs::Texts::head_most))]
fn put_row(w: &mut Writer<'_>, load: Loading, tape: &[u8], blocks: &[u64], i: u64) -> Loading
    requires ready_row { ReadyRow tape.now blocks.now i }
    requires at_bound { (w.old.at + 1024 < 2 ^ 63) × (load.sum < 2 ^ 63) }
    ensures by_index { (tones : List ℕ) (n : ℕ)
        → Writes w.old (row_text (tape_of tape.now tones blocks.now n) i) w.new }
    ensures load_value { result ≡ one_more load (get block blocks.now i) }
{
    let r = row_at(blocks, i as usize);
    put_head(w, i, r);
    put_tail(w, tape, r, row_lasts(r));
    one_more(load, r)
}

// The lines of the first n rows, and the loading time; our crates alone call it.
pub fn put_rows(w: &mut Writer<'_>, tape: &[u8], blocks: &[u64], n: u64) -> Loading
    requires ready { Ready tape.now blocks.now n }
    requires at_bound { w.old.at ≤ 1024 }
    ensures by_index { (tones : List ℕ)
        → Writes w.old (rows_text (tape_of tape.now tones blocks.now n) n) w.new }
    ensures by_index_2 { (tones : List ℕ) → result.end ≡ rows_time (tape_of tape.now tones blocks.now n) }
{
    let mut load = none();
    for i in 0..n {
        load = put_row(w, load, tape, blocks, i);
    }
    load
}
