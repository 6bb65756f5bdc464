// Thin functions that a C host calls over tables of its own: include/glyvrask.h says what each takes and which words it answers.
#![tactic(auto)]

ghost use Rattle.std.specs.Prelude.{◌≡◌, not, List, eqb, ℕ, length};
ghost use Rattle.refusals.specs.Refusals.{number};
ghost use Rattle.play_entries.specs.Mounted.{tape_of, mounted_tape};
ghost use Rattle.play_walk.specs.Heads.{start_at};
ghost use Rattle.ask.specs.Queries.{len_of, size_of, selectable_of, time_of, name_answer, loading_of};
ghost use Rattle.load_tape.specs.Load.{answer_of, block_table, tone_table};
ghost use Rattle.host_answers.specs.Answers.{number_of, values_of, of_number, of_mark, of_time, of_position, of_loaded};
ghost use Rattle.play_deck.specs.Deck.{play_measured};
ghost use Rattle.host_words.specs.Words.{position_from};
ghost use Rattle.host_run.specs.Runs.{player_of, run_no, run_table};
ghost use Rattle.host_answers.specs.Answers.{of_reached};
ghost use Rattle.export.specs.Export.{run_number, run_left, moved_to, head_left};
ghost use Rattle.export.specs.Export.{load_in, misplaced_no, selected_at, source_at, measured_at, load_number, load_table, name_left};

use host_answers::{Words, tell_answer, tell_inside};
use host_run::{call_by, play_run};
use host_words::position_from;
use play_deck::{Head, assay, ends_inside};
use play_entries::Mounted;
use play_head::play_once;
use play_walk::Position;
use refusals::{NO_ROOM, Refusal};

// Why words name no position, in rule 37's order: 11 for the count, 9 for the block number that stands first, 11 for its row, 9.
#[tactic(auto, unfolding(crate::specs::Export::misplaced_no))]
fn misplaced(m: &Mounted<'_>, words: &[u64]) -> Refusal
    ensures { number result ≡ misplaced_no (mounted_tape m.now) words.now }
{
    if m.is_overfull() {
        return Refusal::BadRow;
    }
    match words.first() {
        Some(&b) if b < m.count && !m.row_well(b) => Refusal::BadRow,
        _ => Refusal::NoPosition,
    }
}

// A load into the host's tables; answers the format, the blocks and the tone rows.
pub fn glyvrask_load(
    tape: &[u8],
    model: u32,
    blocks: &mut [u64],
    tones: &mut [u64],
    answer: &mut [u64],
) -> u32
    ensures value { result
        ≡ load_number (answer_of (load_in blocks.old tones.old tape.now model)) answer.old }
    ensures blocks_after { blocks.new
        ≡ load_table answer.old blocks.old
        (block_table (length blocks.old) (load_in blocks.old tones.old tape.now model)) }
    ensures tones_after { tones.new
        ≡ load_table answer.old tones.old
        (tone_table (length tones.old) (load_in blocks.old tones.old tape.now model)) }
    ensures answer_after { answer.new
        ≡ values_of (of_loaded (answer_of (load_in blocks.old tones.old tape.now model)))
        answer.old }
{
    if answer.len() < 3 {
        return NO_ROOM;
    }
    tell_answer(load_tape::load(tape, model, blocks, tones), answer)
}

// How many blocks the tape has.
pub fn glyvrask_len(blocks: &[u64], count: u64, answer: &mut [u64]) -> u32
    ensures by_index { (bytes tones : List ℕ)
        → result ≡ number_of (of_number (len_of (tape_of bytes tones blocks.now count))) answer.old }
    ensures by_index_2 { (bytes tones : List ℕ)
        → answer.new ≡ values_of (of_number (len_of (tape_of bytes tones blocks.now count))) answer.old }
{
    tell_answer(ask::len(blocks, count), answer)
}

// A block's name as UTF-8 into `out`; answers its length.
pub fn glyvrask_block_name(
    tape: &[u8],
    blocks: &[u64],
    tones: &[u64],
    count: u64,
    i: u64,
    out: &mut [u8],
    answer: &mut [u64],
) -> u32
    ensures value { result
        ≡ number_of
        (of_number (name_answer (tape_of tape.now tones.now blocks.now count) i out.old))
        answer.old }
    ensures out_after { out.new
        ≡ name_left (tape_of tape.now tones.now blocks.now count) i answer.old
        out.old }
    ensures answer_after { answer.new
        ≡ values_of
        (of_number (name_answer (tape_of tape.now tones.now blocks.now count) i out.old))
        answer.old }
{
    let m = Mounted {
        tape,
        tones,
        blocks,
        count,
    };
    if answer.len() < 1 {
        return tell_answer(ask::block_size(&m, i), answer); // the name's refusals, and no byte written
    }
    tell_answer(ask::block_name(&m, i, out), answer)
}

// A block's data size.
pub fn glyvrask_block_size(
    tape: &[u8],
    blocks: &[u64],
    tones: &[u64],
    count: u64,
    i: u64,
    answer: &mut [u64],
) -> u32
    ensures value { result
        ≡ number_of (of_number (size_of (tape_of tape.now tones.now blocks.now count) i))
        answer.old }
    ensures answer_after { answer.new
        ≡ values_of (of_number (size_of (tape_of tape.now tones.now blocks.now count) i))
        answer.old }
{
    let m = Mounted {
        tape,
        tones,
        blocks,
        count,
    };
    tell_answer(ask::block_size(&m, i), answer)
}

// Its selectable mark.
pub fn glyvrask_block_selectable(
    tape: &[u8],
    blocks: &[u64],
    tones: &[u64],
    count: u64,
    i: u64,
    answer: &mut [u64],
) -> u32
    ensures value { result
        ≡ number_of (of_mark (selectable_of (tape_of tape.now tones.now blocks.now count) i))
        answer.old }
    ensures answer_after { answer.new
        ≡ values_of (of_mark (selectable_of (tape_of tape.now tones.now blocks.now count) i))
        answer.old }
{
    let m = Mounted {
        tape,
        tones,
        blocks,
        count,
    };
    tell_answer(ask::block_selectable(&m, i), answer)
}

// What it lasts, with its pause.
pub fn glyvrask_block_time(
    tape: &[u8],
    blocks: &[u64],
    tones: &[u64],
    count: u64,
    i: u64,
    answer: &mut [u64],
) -> u32
    ensures value { result
        ≡ number_of (of_time (time_of (tape_of tape.now tones.now blocks.now count) i))
        answer.old }
    ensures answer_after { answer.new
        ≡ values_of (of_time (time_of (tape_of tape.now tones.now blocks.now count) i))
        answer.old }
{
    let m = Mounted {
        tape,
        tones,
        blocks,
        count,
    };
    tell_answer(ask::block_time(&m, i), answer)
}

// T-states of all entries up to the first stop or the end.
pub fn glyvrask_loading_time(
    tape: &[u8],
    blocks: &[u64],
    tones: &[u64],
    count: u64,
    answer: &mut [u64],
) -> u32
    ensures value { result
        ≡ number_of (of_number (loading_of (tape_of tape.now tones.now blocks.now count)))
        answer.old }
    ensures answer_after { answer.new
        ≡ values_of (of_number (loading_of (tape_of tape.now tones.now blocks.now count)))
        answer.old }
{
    let m = Mounted {
        tape,
        tones,
        blocks,
        count,
    };
    tell_answer(ask::loading_time(&m), answer)
}

// A block's start, as a position's words.
#[tactic(auto, unfolding(host_answers::specs::Answers::number_of, host_answers::specs::Answers::values_of, host_answers::specs::Answers::of_position))]
pub fn glyvrask_new_at_block(block: u64, answer: &mut [u64]) -> u32
    ensures value { result ≡ number_of (of_position (start_at block)) answer.old }
    ensures answer_after { answer.new ≡ values_of (of_position (start_at block)) answer.old }
{
    Position::new_at_block(block).tell(answer)
}

// The block that a position is shown under.
#[tactic(auto, unfolding(crate::specs::Export::with_place))]
pub fn glyvrask_position_block(
    tape: &[u8],
    blocks: &[u64],
    tones: &[u64],
    count: u64,
    position: &[u64],
    answer: &mut [u64],
) -> u32
    ensures value { result
        ≡ number_of (selected_at (tape_of tape.now tones.now blocks.now count) position.now)
        answer.old }
    ensures answer_after { answer.new
        ≡ values_of (selected_at (tape_of tape.now tones.now blocks.now count) position.now)
        answer.old }
{
    let m = Mounted {
        tape,
        tones,
        blocks,
        count,
    };
    match position_from(position) {
        Some(pos) => tell_answer(play_menu::block(&m, pos), answer),
        None => misplaced(&m, position).number(),
    }
}

// A call of n from the position that lent words name; where it ends inside its entry, straight on those words.
fn call_words(
    m: &Mounted<'_>,
    measured: bool,
    position: &[u64],
    pos: Position,
    n: u32,
    answer: &mut [u64],
) -> u32
    requires { position_from position.now ≡ Some pos }
    ensures value { result ≡ number_of (of_reached (player_of measured (mounted_tape m.now) pos n)) answer.old }
    ensures answer_after { answer.new ≡ values_of (of_reached (player_of measured (mounted_tape m.now) pos n)) answer.old }
{
    let a = assay(m, pos);
    if let Ok(found) = a {
        if ends_inside(pos.left, n as u64) {
            return tell_inside(position, n as u64, found.level, answer);
        }
    }
    tell_answer(call_by(m, measured, pos, n, a), answer)
}

// The source's play of n T-states.
#[tactic(auto, unfolding(crate::specs::Export::with_place, host_run::specs::Runs::player_of))]
pub fn glyvrask_play(
    tape: &[u8],
    blocks: &[u64],
    tones: &[u64],
    count: u64,
    position: &[u64],
    n: u32,
    answer: &mut [u64],
) -> u32
    ensures value { result
        ≡ number_of (source_at (tape_of tape.now tones.now blocks.now count) position.now n)
        answer.old }
    ensures answer_after { answer.new
        ≡ values_of (source_at (tape_of tape.now tones.now blocks.now count) position.now n)
        answer.old }
{
    let m = Mounted {
        tape,
        tones,
        blocks,
        count,
    };
    match position_from(position) {
        Some(pos) => call_words(&m, false, position, pos, n, answer),
        None => misplaced(&m, position).number(),
    }
}

// The measured player's call of n T-states.
#[tactic(auto, unfolding(crate::specs::Export::with_place, host_run::specs::Runs::player_of))]
pub fn glyvrask_play_measured(
    tape: &[u8],
    blocks: &[u64],
    tones: &[u64],
    count: u64,
    position: &[u64],
    n: u32,
    answer: &mut [u64],
) -> u32
    ensures value { result
        ≡ number_of (measured_at (tape_of tape.now tones.now blocks.now count) position.now n)
        answer.old }
    ensures answer_after { answer.new
        ≡ values_of (measured_at (tape_of tape.now tones.now blocks.now count) position.now n)
        answer.old }
{
    let m = Mounted {
        tape,
        tones,
        blocks,
        count,
    };
    match position_from(position) {
        Some(pos) => call_words(&m, true, position, pos, n, answer),
        None => misplaced(&m, position).number(),
    }
}

// The measured player over a head whose words name a position, which are then those where it is.
fn move_head(m: &Mounted<'_>, pos: Position, head: &mut [u64], n: u32, answer: &mut [u64]) -> u32
    requires { position_from head.old ≡ Some pos }
    ensures value { result ≡ number_of (of_reached (play_measured (mounted_tape m.now) pos n)) answer.old }
    ensures head_after { head.new ≡ moved_to (mounted_tape m.now) pos n answer.old head.old }
    ensures answer_after { answer.new ≡ values_of (of_reached (play_measured (mounted_tape m.now) pos n)) answer.old }
{
    let p = play_once(m, Head { position: pos }, n);
    let k = tell_answer(p.answer, answer);
    if k == 0 {
        p.head.position.tell(head);
    }
    k
}

// A run's number: 0 where its rows are told.
fn run_words(
    m: &Mounted<'_>,
    pos: Position,
    measured: bool,
    counts: &[u32],
    answers: &mut [u64],
) -> u32
    ensures value { result ≡ run_no (mounted_tape m.now) pos counts.now answers.old }
    ensures answers_after { answers.new ≡ run_table measured (mounted_tape m.now) pos counts.now answers.old }
{
    match play_run(m, pos, measured, counts, answers) {
        Ok(()) => 0,
        Err(no) => no.number(),
    }
}

// A run of calls of the source's play (measured is 0) or of the measured player, a row of `answers` for each.
#[tactic(auto, unfolding(crate::specs::Export::from_place))]
pub fn glyvrask_play_run(
    tape: &[u8],
    blocks: &[u64],
    tones: &[u64],
    count: u64,
    position: &[u64],
    measured: u32,
    counts: &[u32],
    answers: &mut [u64],
) -> u32
    ensures value { result
        ≡ run_number (tape_of tape.now tones.now blocks.now count) position.now
        counts.now answers.old }
    ensures answers_after { answers.new
        ≡ run_left (not (eqb measured 0)) (tape_of tape.now tones.now blocks.now count)
        position.now counts.now answers.old }
{
    let m = Mounted {
        tape,
        tones,
        blocks,
        count,
    };
    match position_from(position) {
        Some(pos) => run_words(&m, pos, measured != 0, counts, answers),
        None => misplaced(&m, position).number(),
    }
}

// The measured player's call of n T-states over a head that the host lends, whose words it moves; a refusal leaves them as they were.
#[tactic(auto, unfolding(crate::specs::Export::with_place, crate::specs::Export::from_place))]
pub fn glyvrask_play_head(
    tape: &[u8],
    blocks: &[u64],
    tones: &[u64],
    count: u64,
    head: &mut [u64],
    n: u32,
    answer: &mut [u64],
) -> u32
    ensures value { result
        ≡ number_of (measured_at (tape_of tape.now tones.now blocks.now count) head.old n)
        answer.old }
    ensures head_after { head.new
        ≡ head_left (tape_of tape.now tones.now blocks.now count) head.old n
        answer.old }
    ensures answer_after { answer.new
        ≡ values_of (measured_at (tape_of tape.now tones.now blocks.now count) head.old n)
        answer.old }
{
    let m = Mounted {
        tape,
        tones,
        blocks,
        count,
    };
    match position_from(head) {
        Some(pos) => move_head(&m, pos, head, n, answer),
        None => misplaced(&m, head).number(),
    }
}
