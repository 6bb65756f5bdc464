// A load's answer as text; of refusal 3, what the two attempts met.
#![tactic(auto)]

ghost use Rattle.std.specs.Prelude.{◌≡◌, ◌++◌, ◌+◌, ◌^◌, ◌<◌, ◌≤◌, length};
ghost use Rattle.text_out.specs.Out.{ascii, Fitted};
ghost use Rattle.text_out.specs.Writes.{Writes};
ghost use Rattle.load_blocks.specs.Does.{lent_of};
ghost use Rattle.load_tape.specs.Load.{load_named, answer_of, block_table, tone_table};
ghost use Rattle.prog_unread.specs.Report.{piece_text, field_text, failure_text, tzx_text, report_text};

use load_source::Failure;
use load_tape::{Format, Loaded, NotLoaded, load};
use refusals::TAPE_BAD;
use rows::{Block, Row, Tone};
use text_out::Writer;

// The words of both tables where every row has its place: no more are ever used.
pub const FULL_BLOCKS: usize = 4096 * Block::WORDS;

pub const FULL_TONES: usize = 65536 * Tone::WORDS;

// A piece: its kind, and the place of its kind byte.
#[tactic(auto, using(text_out::proofs::Writing::composed), unfolding(crate::specs::Report::piece_text))]
fn put_piece(w: &mut Writer<'_>, kind: u8, piece: u64)
    requires { w.old.at + 64 < 2 ^ 63 }
    ensures { Writes w.old (piece_text kind piece) w.new }
{
    w.said(b" kind ", u64::from(kind));
    w.said(b" piece ", piece);
}

// A field: its place and its width.
#[tactic(auto, using(text_out::proofs::Writing::composed), unfolding(crate::specs::Report::field_text))]
fn put_field(w: &mut Writer<'_>, place: u64, width: u64)
    requires { w.old.at + 64 < 2 ^ 63 }
    ensures { Writes w.old (field_text place width) w.new }
{
    w.said(b" place ", place);
    w.said(b" width ", width);
}

// What an attempt met.
#[tactic(auto, using(text_out::proofs::Writing::composed, crate::proofs::Lengths::piece_length), unfolding(crate::specs::Report::failure_text))]
fn put_failure(w: &mut Writer<'_>, f: Failure)
    requires { w.old.at + 160 < 2 ^ 63 }
    ensures { Writes w.old (failure_text f) w.new }
{
    match f {
        Failure::BadSignature => w.bytes(b"signature bad"),
        Failure::Short { place, width } => {
            w.bytes(b"short");
            put_field(w, place, width);
        }
        Failure::ShortPiece {
            kind,
            at: piece,
            place: field,
            width,
        } => {
            w.bytes(b"short");
            put_piece(w, kind, piece);
            put_field(w, field, width);
        }
        Failure::Length {
            kind,
            at: piece,
            length,
        } => {
            w.bytes(b"length");
            put_piece(w, kind, piece);
            w.said(b" length ", u64::from(length));
        }
    }
}

// An attempt's line, after its first words.
#[tactic(auto, using(text_out::proofs::Writing::composed, crate::proofs::Lengths::failure_length))]
fn put_attempt(w: &mut Writer<'_>, word: &[u8], f: Failure)
    requires { (w.old.at + 256 < 2 ^ 63) × (length word.now ≤ 16) }
    ensures { Writes w.old (word.now ++ failure_text f ++ ascii "\n") w.new }
{
    w.bytes(word);
    put_failure(w, f);
    w.byte(b'\n');
}

// The line of the attempt as TZX: a field in no piece is the signature.
#[tactic(auto, unfolding(crate::specs::Report::tzx_text))]
fn put_tzx(w: &mut Writer<'_>, f: Failure)
    requires { w.old.at + 256 < 2 ^ 63 }
    ensures { Writes w.old (ascii "tzx " ++ tzx_text f ++ ascii "\n") w.new }
{
    if let Failure::Short { .. } = f {
        put_attempt(w, b"tzx signature ", f);
    } else {
        put_attempt(w, b"tzx ", f);
    }
}

// What a load answered.
#[tactic(auto, using(text_out::proofs::Writing::composed, crate::proofs::Lengths::report_parts), unfolding(crate::specs::Report::report_text, crate::specs::Report::read_text))]
fn put_answer(w: &mut Writer<'_>, loaded: Result<Loaded, NotLoaded>)
    requires { w.old.at + 512 < 2 ^ 63 }
    ensures { Writes w.old (report_text loaded) w.new }
{
    match loaded {
        Ok(l) => match l.format {
            Format::Tap => w.bytes(b"read TAP\n"),
            Format::Tzx => w.bytes(b"read TZX\n"),
        },
        Err(NotLoaded::Unread { tzx, tap }) => {
            w.refused_line(TAPE_BAD);
            put_tzx(w, tzx);
            put_attempt(w, b"tap ", tap);
        }
        Err(NotLoaded::Refused(k)) => w.refused_line(k),
    }
}

// The same into lent bytes; our programs alone call it.
pub fn put_report(out: &mut [u8], loaded: Result<Loaded, NotLoaded>) -> usize
    requires { 256 ≤ length out.old }
    ensures { Fitted (report_text loaded) out.old out.new result }
{
    let mut w = Writer::over(out);
    put_answer(&mut w, loaded);
    w.at
}

// Loads a tape and writes what the load answered; our programs alone call it.
pub fn say_unread(
    tape: &[u8],
    model: u32,
    blocks: &mut [u64],
    tones: &mut [u64],
    out: &mut [u8],
) -> usize
    requires { 256 ≤ length out.old }
    ensures fitted { Fitted (report_text (answer_of (load_named (lent_of (length blocks.old) (length tones.old))
        tape.now model))) out.old out.new result }
    ensures blocks_after { blocks.new ≡ block_table (length blocks.old)
        (load_named (lent_of (length blocks.old) (length tones.old)) tape.now model) }
    ensures tones_after { tones.new ≡ tone_table (length tones.old)
        (load_named (lent_of (length blocks.old) (length tones.old)) tape.now model) }
{
    let loaded = load(tape, model, blocks, tones);
    put_report(out, loaded)
}
