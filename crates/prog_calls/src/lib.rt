// The text of a run of calls of a player, from its description. The description: a model byte (`4`, `1`, `3`), `m` (measured) or `s`
// (the source's), a block number (4 bytes), how many calls (2 bytes, at most 1,000), each call's count (4 bytes), then the tape.
// Numbers are little-endian.
#![tactic(auto)]

mod answers;

ghost use Rattle.std.specs.Prelude.{◌≡◌, true, ◌+◌, ◌*◌, ◌^◌, ◌<◌, ◌≤◌, length, take};
ghost use Rattle.rows.specs.Table.{rows_of};
ghost use Rattle.play_entries.specs.Mounted.{mounted_tape};
ghost use Rattle.play_walk.specs.Heads.{start_at};
ghost use Rattle.host_run.specs.Rows.{answer_row};
ghost use Rattle.text_out.specs.Out.{refused_line};
ghost use Rattle.text_out.specs.Writes.{Writes};
ghost use Rattle.prog_calls.specs.Answers.{reached_in};
ghost use Rattle.prog_calls.specs.Playback.{is_player, number_in, counts_in, is_description};
ghost use Rattle.prog_calls.specs.Trace.{ends_run, run_text, tape_text, described_text, trace_text, Prints};
ghost use Rattle.prog_calls.specs.Inner.{line_in, lines_in, same_lines};

use answers::{place_in, reached_in};
use cut_fields::Reader;
use host_run::{AnswerRow, play_run};
use load_tape::load;
use play_entries::Mounted;
use play_menu::block;
use play_walk::{How, Position, Reached};
use prog_model::model_of;
use refusals::{BAD_MODEL, NO_POSITION, TAPE_LONG};
use rows::{BLOCK_TABLE, TONE_TABLE, row_at};
use text_out::Writer;
use text_trace::put_line;

// The number of w bytes at a place; 0 where they are not all there.
fn number(s: &[u8], at: u64, w: u64) -> u32
    ensures { result ≡ number_in s.now at w }
{
    let mut r = Reader {
        tape: s,
        at: Ok(at),
    };
    r.number(w).unwrap_or(0)
}

// Whether a byte names a player.
#[tactic(auto, unfolding(crate::specs::Playback::is_player))]
fn is_player(b: u8) -> bool
    ensures { result ≡ is_player b }
{
    b == b'm' || b == b's'
}

// Whether the bytes begin with a description, whatever model they name.
#[tactic(auto, unfolding(crate::specs::Playback::is_description))]
fn is_description(s: &[u8]) -> bool
    ensures { result ≡ is_description s.now }
{
    if s.len() < 8 || !is_player(s[1]) {
        return false;
    }
    let calls = number(s, 6, 2) as usize;
    calls <= 1000 && 8 + 4 * calls <= s.len()
}

// Each call's count, with room for 1,000 of them.
#[tactic(auto, using(crate::proofs::Saying::counts_next), unfolding(crate::specs::Playback::counts_in))]
fn read_counts(bytes: &[u8], calls: usize) -> [u32; 1000]
    requires { calls ≤ 1000 }
    ensures room { 1000 ≡ length result }
    ensures counts { take calls result ≡ counts_in bytes.now calls }
{
    let mut counts = [0; 1000];
    for i in 0..calls {
        counts[i] = number(bytes, 4 * i as u64, 4);
    }
    counts
}

// Whether a run ends with a row: the source's with the tape.
#[tactic(auto, unfolding(crate::specs::Trace::ends_run, play_walk::specs::Heads::ended_in))]
fn ends_run(measured: bool, a: AnswerRow) -> bool
    ensures { result ≡ ends_run measured (reached_in a) }
{
    if measured {
        return false;
    }
    matches!(
        reached_in(a),
        Ok(Reached {
            how: How::Ended,
            ..
        })
    )
}

// The line of a row.
#[tactic(auto, unfolding(crate::specs::Inner::line_in))]
fn put_row(w: &mut Writer<'_>, m: &Mounted<'_>, measured: bool, a: AnswerRow)
    requires { w.old.at + 256 < 2 ^ 63 }
    ensures { Writes w.old (line_in measured (mounted_tape m.now) a) w.new }
{
    put_line(w, measured, reached_in(a), block(m, place_in(a)));
}

// The lines of a run's first n rows.
#[tactic(auto, using(text_out::proofs::Loops::goes_none))]
fn put_rows(w: &mut Writer<'_>, m: &Mounted<'_>, measured: bool, answers: &[u64], n: usize)
    requires width_in_bounds { n * answer_row.width ≤ length answers.now }
    requires n_bound { (n ≤ 1000) × (w.old.at ≤ 1024) }
    ensures { Writes w.old (lines_in measured (mounted_tape m.now) (rows_of answer_row answers.now n)) w.new }
{
    for i in 0..n {
        let a = row_at(answers, i);
        put_row(w, m, measured, a);
        if ends_run(measured, a) {
            return;
        }
    }
}

// The line of a refusal n times.
#[tactic(auto, using(text_out::proofs::Loops::goes_none))]
fn put_refusals(w: &mut Writer<'_>, k: u32, n: usize)
    requires { (n ≤ 1000) × (w.old.at ≤ 1024) }
    ensures { Writes w.old (same_lines n (refused_line k)) w.new }
{
    for _ in 0..n {
        w.refused_line(k);
    }
}

// The lines of a run; where its start is refused, so is each call.
#[tactic(auto, using(crate::proofs::Runs::refused_said, crate::proofs::Runs::played_said))]
fn put_run(
    w: &mut Writer<'_>,
    m: &Mounted<'_>,
    measured: bool,
    from: u64,
    counts: &[u32],
    answers: &mut [u64],
)
    requires width_in_bounds { length counts.now * answer_row.width ≤ length answers.old }
    requires counts_len_bound { (length counts.now ≤ 1000) × (w.old.at ≤ 1024) }
    ensures { Writes w.old (run_text measured (mounted_tape m.now) (start_at from) counts.now) w.new }
{
    let pos = Position::new_at_block(from);
    match play_run(m, pos, measured, counts, answers) {
        Ok(()) => put_rows(w, m, measured, answers, counts.len()),
        Err(no) => put_refusals(w, no.number(), counts.len()),
    }
}

// What is printed of a run from a block's start over rows in tables; our programs call it, and lend 256 bytes a call.
#[tactic(auto, using(crate::proofs::Saying::writer_prints, crate::proofs::Runs::calls_most))]
pub fn say_calls(
    m: &Mounted<'_>,
    measured: bool,
    from: u64,
    counts: &[u8],
    calls: usize,
    out: &mut [u8],
) -> usize
    requires calls_bound { calls ≤ 1000 }
    requires in_bounds { 256000 ≤ length out.old }
    ensures { Prints (run_text measured (mounted_tape m.now) (start_at from) (counts_in counts.now calls)) result
        out.new }
{
    let each = read_counts(counts, calls);
    let mut answers = [0u64; 10000];
    let mut w = Writer::over(out);
    put_run(&mut w, m, measured, from, &each[..calls], &mut answers);
    w.at
}

// `refused n`
#[tactic(auto, using(crate::proofs::Saying::writer_prints, text_out::proofs::Writing::refused_line_length))]
fn say_refused(out: &mut [u8], k: u32) -> usize
    requires { 32 ≤ length out.old }
    ensures { Prints (refused_line k) result out.new }
{
    let mut w = Writer::over(out);
    w.refused_line(k);
    w.at
}

// What is printed of a run over a tape's bytes.
#[tactic(auto, unfolding(crate::specs::Trace::tape_text, crate::specs::Trace::loaded_text))]
fn say_tape(
    tape: &[u8],
    model: u32,
    measured: bool,
    from: u64,
    counts: &[u8],
    calls: usize,
    out: &mut [u8],
) -> usize
    requires calls_bound { calls ≤ 1000 }
    requires in_bounds { 256000 ≤ length out.old }
    ensures { Prints (tape_text measured model tape.now from (counts_in counts.now calls)) result
        out.new }
{
    let mut blocks = [0u64; BLOCK_TABLE];
    let mut tones = [0u64; TONE_TABLE];
    match load(tape, model, &mut blocks, &mut tones) {
        Ok(loaded) => {
            let m = Mounted {
                tape,
                tones: &tones,
                blocks: &blocks,
                count: loaded.blocks,
            };
            say_calls(&m, measured, from, counts, calls, out)
        }
        Err(no) => say_refused(out, no.number()),
    }
}

// What is printed of a description and its tape.
#[tactic(auto, using(crate::proofs::Describing::all_behind), unfolding(crate::specs::Playback::is_description, crate::specs::Trace::described_text))]
fn say_described(input: &[u8], model: u32, out: &mut [u8]) -> usize
    requires input_value { is_description input.now ≡ true }
    requires in_bounds { 256000 ≤ length out.old }
    ensures { Prints (described_text model input.now) result out.new }
{
    let calls = number(input, 6, 2) as usize;
    let tape = &input[8 + 4 * calls..];
    if 65535 < tape.len() {
        return say_refused(out, TAPE_LONG);
    }
    let from = number(input, 2, 4) as u64;
    say_tape(tape, model, input[1] == b'm', from, &input[8..], calls, out)
}

// What is printed of an input, into the front of `out`; the count of its bytes. Our programs call it.
#[tactic(auto, unfolding(crate::specs::Trace::trace_text))]
pub fn say_trace(input: &[u8], out: &mut [u8]) -> usize
    requires { 256000 ≤ length out.old }
    ensures { Prints (trace_text input.now) result out.new }
{
    if input.len() == 0 {
        return say_refused(out, BAD_MODEL);
    }
    let model = model_of(input[0]);
    if model == 3 {
        return say_refused(out, BAD_MODEL);
    }
    if !is_description(input) {
        return say_refused(out, NO_POSITION);
    }
    say_described(input, model, out)
}
