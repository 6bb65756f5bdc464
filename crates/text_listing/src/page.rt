// A listing's whole text: its first line, the rows' lines and the last.
ghost use Rattle.std.specs.Prelude.{◌≡◌, List, ℕ, ◌+◌, ◌^◌, ◌<◌};
ghost use Rattle.text_out.specs.Out.{Wrote};
ghost use Rattle.text_out.specs.Writes.{Writes};
ghost use Rattle.play_entries.specs.Mounted.{tape_of};
ghost use Rattle.text_listing.specs.Inner.{Ready};
ghost use Rattle.text_listing.specs.Page.{model_text, format_text, count_text, loading_text, listing_text};

use crate::put_rows;
use load_tape::Format;
use text_out::Writer;

// The model's name.
#[tactic(auto, unfolding(crate::specs::Page::model_text))]
fn put_model(w: &mut Writer<'_>, model: u32)
    requires { w.old.at + 5 < 2 ^ 63 }
    ensures { Writes w.old (model_text model) w.new }
{
    match model {
        0 => w.bytes(b"48K"),
        1 => w.bytes(b"128K"),
        _ => w.bytes(b"Plus3"),
    }
}

// The format's.
#[tactic(auto, unfolding(crate::specs::Page::format_text))]
fn put_format(w: &mut Writer<'_>, format: Format)
    requires { w.old.at + 3 < 2 ^ 63 }
    ensures { Writes w.old (format_text format) w.new }
{
    match format {
        Format::Tap => w.bytes(b"TAP"),
        Format::Tzx => w.bytes(b"TZX"),
    }
}

// The first line from behind the model's name on.
#[tactic(auto, using(text_out::proofs::Writing::composed, crate::proofs::PageTexts::format_most), unfolding(crate::specs::Page::count_text))]
fn put_count(w: &mut Writer<'_>, format: Format, n: u64)
    requires { w.old.at + 64 < 2 ^ 63 }
    ensures { Writes w.old (count_text format n) w.new }
{
    w.bytes(b" format ");
    put_format(w, format);
    w.said_line(b" blocks ", n);
}

// The last line.
#[tactic(auto, using(text_out::proofs::Writing::composed), unfolding(crate::specs::Page::loading_text))]
fn put_total(w: &mut Writer<'_>, total: u64)
    requires { w.old.at + 64 < 2 ^ 63 }
    ensures { Writes w.old (loading_text total) w.new }
{
    w.said_line(b"time ", total);
}

// The whole text of rows that its callers know to be ready; no tone row is looked at.
#[tactic(auto, using(crate::proofs::PageTexts::parts_most))]
fn put_whole(w: &mut Writer<'_>, model: u32, format: Format, tape: &[u8], blocks: &[u64], n: u64)
    requires ready { Ready tape.now blocks.now n }
    requires at_value { w.old.at ≡ 0 }
    ensures { (tones : List ℕ) → Writes w.old
        (listing_text model format (tape_of tape.now tones blocks.now n)) w.new }
{
    w.bytes(b"model ");
    put_model(w, model);
    put_count(w, format, n);
    let load = put_rows(w, tape, blocks, n);
    put_total(w, load.end);
}

// The same into lent bytes, and how many it takes. Our crates alone call it.
pub fn put_listing(
    out: &mut [u8],
    model: u32,
    format: Format,
    tape: &[u8],
    blocks: &[u64],
    n: u64,
) -> usize
    requires { Ready tape.now blocks.now n }
    ensures { (tones : List ℕ) → Wrote out.old 0
        (listing_text model format (tape_of tape.now tones blocks.now n)) out.new result }
{
    let mut w = Writer::over(out);
    put_whole(&mut w, model, format, tape, blocks, n);
    w.at
}
