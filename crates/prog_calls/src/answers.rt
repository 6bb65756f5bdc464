// A run's rows read back: the answer that a row's words say, and where that leaves the head.
ghost use Rattle.std.specs.Prelude.{◌≡◌};
ghost use Rattle.prog_calls.specs.Answers.{place_in, reached_in};

use host_run::AnswerRow;
use host_words::position_from;
use play_walk::{Fault, How, Position, Reached, Stand};
use refusals::NO_POSITION;

// Where a row's answer leaves the head.
#[tactic(auto, unfolding(crate::specs::Answers::place_in, crate::specs::Answers::or_start))]
pub(crate) fn place_in(a: AnswerRow) -> Position
    ensures { result ≡ place_in a }
{
    let w = [a.block, a.phase, a.item, a.part, a.half, a.endless, a.left];
    match position_from(&w) {
        Some(q) => q,
        None => Position::new_at_block(0),
    }
}

// A row's answer.
#[tactic(auto, unfolding(crate::specs::Answers::reached_in, play_walk::specs::Heads::not_reached))]
pub(crate) fn reached_in(a: AnswerRow) -> Result<Reached, Fault>
    ensures { result ≡ reached_in a }
{
    let how = match a.how {
        0 => How::At,
        1 => How::Stopped,
        2 => How::Ended,
        how if how == NO_POSITION as u64 => return Err(Fault::NotValid),
        _ => return Err(Fault::NotFormed),
    };
    let stand = Stand {
        position: place_in(a),
        passed: a.passed,
        level: a.level == 1,
    };
    Ok(Reached { how, stand })
}
