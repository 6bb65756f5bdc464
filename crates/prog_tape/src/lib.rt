// A loaded tape as text, a line at a time: 512 copies of a block of 48 KB are 50 MB of text, but each line fits bytes that are lent for it.
#![tactic(auto)]

ghost use Rattle.std.specs.Prelude.{◌≡◌, true, ◌++◌, ◌+◌, ◌*◌, ◌^◌, ◌<◌, ◌≤◌, length, take, drop};
ghost use Rattle.rows.specs.Table.{get};
ghost use Rattle.rows.specs.Rows.{block, tone};
ghost use Rattle.rows.specs.Well.{well_block};
ghost use Rattle.play_entries.specs.Mounted.{tape_size};
ghost use Rattle.text_out.specs.Out.{ascii, decimal, Fitted};
ghost use Rattle.text_out.specs.Writes.{Writes};
ghost use Rattle.text_name.specs.Names.{name_of};
ghost use Rattle.load_blocks.specs.Does.{lent_of};
ghost use Rattle.load_tape.specs.Load.{load_named};
ghost use Rattle.text_listing.specs.Page.{format_text};
ghost use Rattle.text_view.specs.View.{tones_from, row_view};
ghost use Rattle.text_view.specs.Dump.{hex_all, view_line};
ghost use Rattle.prog_tape.specs.Lines.{first_line, lines_after, Opens};
ghost use Rattle.prog_tape.specs.Inner.{data_text, pulses_text, ReadyLine};

use load_tape::{Format, Loaded, NotLoaded, load};
use rows::{Block, row_at};
use text_out::Writer;
use text_view::{put_head, put_hex, put_tones};

// The first line's bytes, and how many lines follow.
#[derive(Clone, Copy)]
pub struct Opening {
    pub size: usize,
    pub more: u64,
}

// The format and the number of blocks.
#[tactic(auto, using(text_out::proofs::Writing::composed), unfolding(text_listing::specs::Page::format_text))]
fn put_count(w: &mut Writer<'_>, format: Format, n: u64)
    requires { w.old.at + 32 < 2 ^ 63 }
    ensures { Writes w.old (format_text format ++ ascii " " ++ decimal n ++ ascii "\n") w.new }
{
    match format {
        Format::Tap => w.said_line(b"TAP ", n),
        Format::Tzx => w.said_line(b"TZX ", n),
    }
}

// The first line of a load's text, and how many follow: none behind a refusal.
#[tactic(auto, unfolding(crate::specs::Lines::first_line, crate::specs::Lines::lines_after))]
fn put_opening(w: &mut Writer<'_>, loaded: Result<Loaded, NotLoaded>) -> u64
    requires { w.old.at + 32 < 2 ^ 63 }
    ensures written { Writes w.old (first_line loaded) w.new }
    ensures more_value { result ≡ lines_after loaded }
{
    match loaded {
        Ok(l) => {
            put_count(w, l.format, l.blocks);
            l.blocks
        }
        Err(e) => {
            w.refused_line(e.number());
            0
        }
    }
}

// The same into lent bytes; our programs alone call it.
pub fn put_first(out: &mut [u8], loaded: Result<Loaded, NotLoaded>) -> Opening
    requires { 32 ≤ length out.old }
    ensures fitted { Fitted (first_line loaded) out.old out.new result.size }
    ensures more_value { result.more ≡ lines_after loaded }
{
    let mut w = Writer::over(out);
    let more = put_opening(&mut w, loaded);
    Opening { size: w.at, more }
}

// Loads a tape and writes the first line of its text; our programs alone call it.
pub fn begin(
    tape: &[u8],
    model: u32,
    blocks: &mut [u64],
    tones: &mut [u64],
    out: &mut [u8],
) -> Opening
    requires { 32 ≤ length out.old }
    ensures { Opens (length blocks.old) (length tones.old) tape.now
        (load_named (lent_of (length blocks.old) (length tones.old)) tape.now model) result
        blocks.new tones.new out.old out.new }
{
    let loaded = load(tape, model, blocks, tones);
    put_first(out, loaded)
}

// A block's name in hexadecimal; its callers know that 512 bytes hold it.
fn put_name(w: &mut Writer<'_>, tape: &[u8], r: Block)
    requires size_in_bounds { (r.start + r.size ≤ length tape.now) × (r.text + r.chars ≤ length tape.now) }
    requires chars_bound { (r.chars ≤ 1048576) × (length (name_of tape.now r) ≤ 510) }
    requires at_bound { w.old.at < 2 ^ 32 }
    ensures { Writes w.old (hex_all (name_of tape.now r)) w.new }
{
    let mut bytes = [0u8; 512];
    let mut name = Writer::over(&mut bytes);
    text_name::put_name(&mut name, tape, r);
    let n = name.at;
    put_hex(w, &name.out[..n]);
}

// Its data.
#[tactic(auto, using(text_out::proofs::Writing::composed))]
fn put_data(w: &mut Writer<'_>, tape: &[u8], r: Block)
    requires size_in_bounds { (r.start + r.size ≤ length tape.now) × (r.size ≤ 1048576) }
    requires at_bound { w.old.at < 2 ^ 32 }
    ensures { Writes w.old (data_text (take r.size (drop r.start tape.now))) w.new }
{
    w.bytes(b" data=");
    let from = r.start as usize;
    put_hex(w, &tape[from..from + r.size as usize]);
}

// Its tone rows, and the line's end.
#[tactic(auto, using(text_out::proofs::Writing::composed, text_view::proofs::Parts::rows_more))]
fn put_pulses(w: &mut Writer<'_>, tones: &[u64], r: Block)
    requires width_in_bounds { (r.tone + r.tones) * tone.width ≤ length tones.now }
    requires at_bound { (w.old.at < 2 ^ 32) × (r.tones ≤ 65536) }
    ensures { Writes w.old (pulses_text (tones_from tones.now r.tone r.tones)) w.new }
{
    w.bytes(b" tones=");
    put_tones(w, tones, r.tone as usize, r.tones as usize);
    w.byte(b'\n');
}

// The line of a block that its callers know to be well formed, and its name to be short.
fn put_line(w: &mut Writer<'_>, tape: &[u8], tones: &[u64], i: u64, r: Block)
    requires r_value { well_block (tape_size tape.now) tones.now r ≡ true }
    requires r_len_bound { length (name_of tape.now r) ≤ 510 }
    requires at_value { w.old.at ≡ 0 }
    ensures { Writes w.old (view_line i (row_view tape.now tones.now r)) w.new }
{
    put_head(w, i, r);
    put_name(w, tape, r);
    put_data(w, tape, r);
    put_pulses(w, tones, r);
}

// The line of block i, which is ready, as every row of a load is; it fits what is asked of `out`. Our programs alone call it.
pub fn block_line(tape: &[u8], tones: &[u64], blocks: &[u64], i: usize, out: &mut [u8]) -> usize
    requires ready_line { ReadyLine tape.now tones.now blocks.now i }
    requires tones_in_bounds { 1200 + 2 * length tape.now + 5 * length tones.now ≤ length out.old }
    ensures { Fitted (view_line i (row_view tape.now tones.now (get block blocks.now i)))
        out.old out.new result }
{
    let mut w = Writer::over(out);
    put_line(&mut w, tape, tones, i as u64, row_at(blocks, i));
    w.at
}
