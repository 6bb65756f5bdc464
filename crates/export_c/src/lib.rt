// The functions for C hosts that have tables of their own: the static library of crate `export`.
#![tactic(auto)]

ghost use Rattle.std.specs.Prelude.{◌≡◌, not, List, eqb, ℕ, length};
ghost use Rattle.play_entries.specs.Mounted.{tape_of};
ghost use Rattle.play_walk.specs.Heads.{start_at};
ghost use Rattle.ask.specs.Queries.{len_of, size_of, selectable_of, time_of, name_answer, loading_of};
ghost use Rattle.load_tape.specs.Load.{answer_of, block_table, tone_table};
ghost use Rattle.host_answers.specs.Answers.{number_of, values_of, of_number, of_mark, of_time, of_position, of_loaded};
ghost use Rattle.export.specs.Export.{run_number, run_left, head_left};
ghost use Rattle.export.specs.Export.{load_in, selected_at, source_at, measured_at, load_number, load_table, name_left};

// A load into the host's tables; answers the format, the blocks and the tone rows.
#[unsafe(no_mangle)]
pub extern "C" fn glyvrask_load(
    tape: &[u8],
    model: u32,
    blocks: &mut [u64],
    tones: &mut [u64],
    answer: &mut [u64],
) -> u32
    ensures value { result
        ≡ load_number (answer_of (load_in blocks.old tones.old tape.now model)) answer.old }
    ensures blocks_after { blocks.new
        ≡ load_table answer.old blocks.old
        (block_table (length blocks.old) (load_in blocks.old tones.old tape.now model)) }
    ensures tones_after { tones.new
        ≡ load_table answer.old tones.old
        (tone_table (length tones.old) (load_in blocks.old tones.old tape.now model)) }
    ensures answer_after { answer.new
        ≡ values_of (of_loaded (answer_of (load_in blocks.old tones.old tape.now model)))
        answer.old }
{
    export::glyvrask_load(tape, model, blocks, tones, answer)
}

// How many blocks the tape has.
#[unsafe(no_mangle)]
pub extern "C" fn glyvrask_len(blocks: &[u64], count: u64, answer: &mut [u64]) -> u32
    ensures by_index { (bytes tones : List ℕ)
        → result ≡ number_of (of_number (len_of (tape_of bytes tones blocks.now count))) answer.old }
    ensures by_index_2 { (bytes tones : List ℕ)
        → answer.new ≡ values_of (of_number (len_of (tape_of bytes tones blocks.now count))) answer.old }
{
    export::glyvrask_len(blocks, count, answer)
}

// A block's name as UTF-8 into `out`; answers its length.
#[unsafe(no_mangle)]
pub extern "C" fn glyvrask_block_name(
    tape: &[u8],
    blocks: &[u64],
    tones: &[u64],
    count: u64,
    i: u64,
    out: &mut [u8],
    answer: &mut [u64],
) -> u32
    ensures value { result
        ≡ number_of
        (of_number (name_answer (tape_of tape.now tones.now blocks.now count) i out.old))
        answer.old }
    ensures out_after { out.new
        ≡ name_left (tape_of tape.now tones.now blocks.now count) i answer.old
        out.old }
    ensures answer_after { answer.new
        ≡ values_of
        (of_number (name_answer (tape_of tape.now tones.now blocks.now count) i out.old))
        answer.old }
{
    export::glyvrask_block_name(tape, blocks, tones, count, i, out, answer)
}

// A block's data size.
#[unsafe(no_mangle)]
pub extern "C" fn glyvrask_block_size(
    tape: &[u8],
    blocks: &[u64],
    tones: &[u64],
    count: u64,
    i: u64,
    answer: &mut [u64],
) -> u32
    ensures value { result
        ≡ number_of (of_number (size_of (tape_of tape.now tones.now blocks.now count) i))
        answer.old }
    ensures answer_after { answer.new
        ≡ values_of (of_number (size_of (tape_of tape.now tones.now blocks.now count) i))
        answer.old }
{
    export::glyvrask_block_size(tape, blocks, tones, count, i, answer)
}

// Its selectable mark.
#[unsafe(no_mangle)]
pub extern "C" fn glyvrask_block_selectable(
    tape: &[u8],
    blocks: &[u64],
    tones: &[u64],
    count: u64,
    i: u64,
    answer: &mut [u64],
) -> u32
    ensures value { result
        ≡ number_of (of_mark (selectable_of (tape_of tape.now tones.now blocks.now count) i))
        answer.old }
    ensures answer_after { answer.new
        ≡ values_of (of_mark (selectable_of (tape_of tape.now tones.now blocks.now count) i))
        answer.old }
{
    export::glyvrask_block_selectable(tape, blocks, tones, count, i, answer)
}

// What it lasts, with its pause.
#[unsafe(no_mangle)]
pub extern "C" fn glyvrask_block_time(
    tape: &[u8],
    blocks: &[u64],
    tones: &[u64],
    count: u64,
    i: u64,
    answer: &mut [u64],
) -> u32
    ensures value { result
        ≡ number_of (of_time (time_of (tape_of tape.now tones.now blocks.now count) i))
        answer.old }
    ensures answer_after { answer.new
        ≡ values_of (of_time (time_of (tape_of tape.now tones.now blocks.now count) i))
        answer.old }
{
    export::glyvrask_block_time(tape, blocks, tones, count, i, answer)
}

// T-states of all entries up to the first stop or the end.
#[unsafe(no_mangle)]
pub extern "C" fn glyvrask_loading_time(
    tape: &[u8],
    blocks: &[u64],
    tones: &[u64],
    count: u64,
    answer: &mut [u64],
) -> u32
    ensures value { result
        ≡ number_of (of_number (loading_of (tape_of tape.now tones.now blocks.now count)))
        answer.old }
    ensures answer_after { answer.new
        ≡ values_of (of_number (loading_of (tape_of tape.now tones.now blocks.now count)))
        answer.old }
{
    export::glyvrask_loading_time(tape, blocks, tones, count, answer)
}

// A block's start, as a position's words.
#[unsafe(no_mangle)]
pub extern "C" fn glyvrask_new_at_block(block: u64, answer: &mut [u64]) -> u32
    ensures value { result ≡ number_of (of_position (start_at block)) answer.old }
    ensures answer_after { answer.new ≡ values_of (of_position (start_at block)) answer.old }
{
    export::glyvrask_new_at_block(block, answer)
}

// The block that a position is shown under.
#[unsafe(no_mangle)]
pub extern "C" fn glyvrask_position_block(
    tape: &[u8],
    blocks: &[u64],
    tones: &[u64],
    count: u64,
    position: &[u64],
    answer: &mut [u64],
) -> u32
    ensures value { result
        ≡ number_of (selected_at (tape_of tape.now tones.now blocks.now count) position.now)
        answer.old }
    ensures answer_after { answer.new
        ≡ values_of (selected_at (tape_of tape.now tones.now blocks.now count) position.now)
        answer.old }
{
    export::glyvrask_position_block(tape, blocks, tones, count, position, answer)
}

// The source's play of n T-states.
#[unsafe(no_mangle)]
pub extern "C" fn glyvrask_play(
    tape: &[u8],
    blocks: &[u64],
    tones: &[u64],
    count: u64,
    position: &[u64],
    n: u32,
    answer: &mut [u64],
) -> u32
    ensures value { result
        ≡ number_of (source_at (tape_of tape.now tones.now blocks.now count) position.now n)
        answer.old }
    ensures answer_after { answer.new
        ≡ values_of (source_at (tape_of tape.now tones.now blocks.now count) position.now n)
        answer.old }
{
    export::glyvrask_play(tape, blocks, tones, count, position, n, answer)
}

// The measured player's call of n T-states.
#[unsafe(no_mangle)]
pub extern "C" fn glyvrask_play_measured(
    tape: &[u8],
    blocks: &[u64],
    tones: &[u64],
    count: u64,
    position: &[u64],
    n: u32,
    answer: &mut [u64],
) -> u32
    ensures value { result
        ≡ number_of (measured_at (tape_of tape.now tones.now blocks.now count) position.now n)
        answer.old }
    ensures answer_after { answer.new
        ≡ values_of (measured_at (tape_of tape.now tones.now blocks.now count) position.now n)
        answer.old }
{
    export::glyvrask_play_measured(tape, blocks, tones, count, position, n, answer)
}

// A run of calls of the source's play (measured is 0) or of the measured player, a row of `answers` for each.
#[unsafe(no_mangle)]
pub extern "C" fn glyvrask_play_run(
    tape: &[u8],
    blocks: &[u64],
    tones: &[u64],
    count: u64,
    position: &[u64],
    measured: u32,
    counts: &[u32],
    answers: &mut [u64],
) -> u32
    ensures value { result
        ≡ run_number (tape_of tape.now tones.now blocks.now count) position.now
        counts.now answers.old }
    ensures answers_after { answers.new
        ≡ run_left (not (eqb measured 0)) (tape_of tape.now tones.now blocks.now count)
        position.now counts.now answers.old }
{
    export::glyvrask_play_run(
        tape, blocks, tones, count, position, measured, counts, answers,
    )
}

// The measured player's call of n T-states over a head that the host lends, whose words it moves; a refusal leaves them as they were.
#[unsafe(no_mangle)]
pub extern "C" fn glyvrask_play_head(
    tape: &[u8],
    blocks: &[u64],
    tones: &[u64],
    count: u64,
    head: &mut [u64],
    n: u32,
    answer: &mut [u64],
) -> u32
    ensures value { result
        ≡ number_of (measured_at (tape_of tape.now tones.now blocks.now count) head.old n)
        answer.old }
    ensures head_after { head.new
        ≡ head_left (tape_of tape.now tones.now blocks.now count) head.old n
        answer.old }
    ensures answer_after { answer.new
        ≡ values_of (measured_at (tape_of tape.now tones.now blocks.now count) head.old n)
        answer.old }
{
    export::glyvrask_play_head(tape, blocks, tones, count, head, n, answer)
}
