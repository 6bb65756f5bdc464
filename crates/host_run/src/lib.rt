// A run of calls of either player, each from where the one before left the head, into a lent table: a row of ten words for each.
#![tactic(auto)]

ghost use Rattle.std.specs.Prelude.{◌≡◌, ℕ, refl, Ok, ◌+◌, ◌*◌, ◌<◌, ◌≤◌, eqb, length, drop};
ghost use Rattle.std.proofs.Common.{lit<};
ghost use Rattle.play_entries.specs.declared.Duration.TheVariants.{T};
ghost use Rattle.law_base.specs.Rules.{◌⇒◌, ◌∣◌};
ghost use Rattle.rows.specs.Table.{put_all};
ghost use Rattle.play_entries.specs.Mounted.{mounted_tape};
ghost use Rattle.play_walk.specs.Heads.{Lands};
ghost use Rattle.play_deck.specs.Assay.{Assayed};
ghost use Rattle.play_deck.specs.Calls.{position_in};
ghost use Rattle.host_run.specs.Rows.{answer_row, stand_row, call_row};
ghost use Rattle.host_run.specs.Runs.{player_of, run_rows, room_for, room_no, run_answer, run_table};
ghost use Rattle.host_run.specs.Inside.{with_left, inside_rows, inside_left, leads_to, Known, HoldsRows};

use host_words::{flag, span_of, spot_of};
use play_deck::{Finding, Measured, Source, assay, assay_after};
use play_entries::{Duration, Mounted};
use play_walk::{Fault, Position, Reached, Stand};
use refusals::Refusal;
use rows::{Row, copy_in, put_row};

// The words of a call's answer: how it came out, the entries passed, the level, and the position.
#[derive(Clone, Copy)]
pub struct AnswerRow {
    pub how: u64,
    pub passed: u64,
    pub level: u64,
    pub block: u64,
    pub phase: u64,
    pub item: u64,
    pub part: u64,
    pub half: u64,
    pub endless: u64,
    pub left: u64,
}

// A table of answers has no limit of its own.
impl Row for AnswerRow {
    ghost codec = { answer_row };

    ghost WORDS = { answer_row.width };

    ghost MOST = { 18446744073709551615 };

    const WORDS: usize = 10;

    const MOST: usize = usize::MAX;

    ghost width_is = { (refl, lit< tt) };

    fn from_words(s: &[u64]) -> AnswerRow {
        AnswerRow {
            how: s[0],
            passed: s[1],
            level: s[2],
            block: s[3],
            phase: s[4],
            item: s[5],
            part: s[6],
            half: s[7],
            endless: s[8],
            left: s[9],
        }
    }

    fn put_words(self, t: &mut [u64], at: usize) {
        let w = [
            self.how,
            self.passed,
            self.level,
            self.block,
            self.phase,
            self.item,
            self.part,
            self.half,
            self.endless,
            self.left,
        ];
        copy_in(t, at, &w);
    }
}

// The words of a stand.
fn stand_row(how: u64, s: Stand) -> AnswerRow
    ensures { result ≡ stand_row how s }
{
    let f = spot_of(s.position.phase);
    let d = span_of(s.position.left);
    AnswerRow {
        how,
        passed: s.passed,
        level: flag(s.level),
        block: s.position.block,
        phase: f.phase,
        item: f.item,
        part: f.part,
        half: f.half,
        endless: d.endless,
        left: d.left,
    }
}

// The row of a call from a position; a refused call's has its number, and the head as it was.
#[tactic(auto, unfolding(crate::specs::Rows::call_row, crate::specs::Rows::how_of, play_deck::specs::Calls::position_in, play_deck::specs::Calls::passed_in, play_deck::specs::Calls::answer_level))]
fn row_of(pos: Position, r: Result<Reached, Fault>) -> AnswerRow
    ensures { result ≡ call_row pos r }
{
    match r {
        Ok(a) => stand_row(a.how as u64, a.stand),
        Err(f) => {
            let here = Stand {
                position: pos,
                passed: 0,
                level: false,
            };
            stand_row(f.number() as u64, here)
        }
    }
}

// Where an answer leaves the head.
#[tactic(auto, unfolding(play_deck::specs::Calls::position_in))]
fn position_in(pos: Position, r: Result<Reached, Fault>) -> Position
    ensures { result ≡ position_in pos r }
{
    match r {
        Ok(a) => a.stand.position,
        Err(_) => pos,
    }
}

// One call of either player, by what its position came to: the one place where a run asks which player it is of. The rest is said once over
// `player_of`, which theorems about runs cite; a type for the player would say it twice. Our crates alone call it.
#[tactic(auto, using(crate::proofs::Players::by_measured, crate::proofs::Players::by_source))]
pub fn call_by(
    m: &Mounted<'_>,
    measured: bool,
    pos: Position,
    n: u32,
    a: Result<Finding, Fault>,
) -> Result<Reached, Fault>
    requires { Assayed (mounted_tape m.now) pos a }
    ensures value { result ≡ player_of measured (mounted_tape m.now) pos n }
    ensures lands { Lands (mounted_tape m.now) result }
{
    if measured {
        play_deck::call_by::<Measured>(m, pos, n, a)
    } else {
        play_deck::call_by::<Source>(m, pos, n, a)
    }
}

// The call behind those that ended inside an entry, and what they left of it.
#[derive(Clone, Copy)]
struct Ran {
    next: usize,
    left: u64,
}

// The calls from call `from` on that end inside an entry, each a row, straight on the words; `row` is the head's before them.
fn run_inside(counts: &[u32], answers: &mut [u64], from: usize, row: AnswerRow) -> Ran
    requires holds_rows { HoldsRows counts.now answers.old }
    requires from_in_bounds { from ≤ length counts.now }
    ensures next_value { result.next ≡ from + length (inside_rows row row.left (drop from counts.now)) }
    ensures left_value { result.left ≡ inside_left row.left (drop from counts.now) }
    ensures answers_after { answers.new
        ≡ put_all answer_row answers.old from (inside_rows row row.left (drop from counts.now)) }
    ensures answers_len_unchanged { length answers.new ≡ length answers.old }
{
    let mut left = row.left;
    for i in from..counts.len() {
        let n = u64::from(counts[i]);
        if left <= n {
            return Ran { next: i, left };
        }
        left -= n;
        put_row(answers, i, AnswerRow { left, ..row });
    }
    Ran {
        next: counts.len(),
        left,
    }
}

// Where a run stands: the position, what it comes to, and the next call.
#[derive(Clone, Copy)]
struct Going {
    position: Position,
    finding: Result<Finding, Fault>,
    next: usize,
}

// The calls that end inside the entry of which t T-states are left, known to be fine.
fn go_inside(
    m: &Mounted<'_>,
    measured: bool,
    counts: &[u32],
    answers: &mut [u64],
    g: Going,
    a: Finding,
    t: u64,
) -> Going
    requires known { Known (mounted_tape m.now) g }
    requires finding_value { (g.finding ≡ Ok a) × (g.position.left ≡ T t) }
    requires holds_rows { HoldsRows counts.now answers.old × (g.next ≤ length counts.now) }
    ensures known_2 { Known (mounted_tape m.now) result }
    ensures next_le_next { (g.next ≤ result.next) × (result.next ≤ length counts.now) }
    ensures result_after { leads_to measured (mounted_tape m.now) counts.now answers.new result
        ≡ leads_to measured (mounted_tape m.now) counts.now answers.old g }
    ensures answers_len_unchanged { length answers.new ≡ length answers.old }
{
    let here = Stand {
        position: g.position,
        passed: 0,
        level: a.level,
    };
    let ran = run_inside(counts, answers, g.next, stand_row(0, here));
    let position = Position {
        left: Duration::T(ran.left),
        ..g.position
    };
    Going {
        position,
        next: ran.next,
        ..g
    }
}

// The next call, whatever it meets; its callers know that there is one.
fn go_on(m: &Mounted<'_>, measured: bool, counts: &[u32], answers: &mut [u64], g: Going) -> Going
    requires known { Known (mounted_tape m.now) g }
    requires holds_rows { HoldsRows counts.now answers.old × (g.next < length counts.now) }
    ensures known_2 { Known (mounted_tape m.now) result }
    ensures next_value { result.next ≡ g.next + 1 }
    ensures result_after { leads_to measured (mounted_tape m.now) counts.now answers.new result
        ≡ leads_to measured (mounted_tape m.now) counts.now answers.old g }
    ensures answers_len_unchanged { length answers.new ≡ length answers.old }
{
    let pos = g.position;
    let a = g.finding;
    let i = g.next;
    let r = call_by(m, measured, pos, counts[i], a);
    put_row(answers, i, row_of(pos, r));
    Going {
        position: position_in(pos, r),
        finding: assay_after(m, pos, a, r),
        next: i + 1,
    }
}

// As far as calls end inside the entry where the run stands.
fn go_far(m: &Mounted<'_>, measured: bool, counts: &[u32], answers: &mut [u64], g: Going) -> Going
    requires known { Known (mounted_tape m.now) g }
    requires holds_rows { HoldsRows counts.now answers.old × (g.next ≤ length counts.now) }
    ensures known_2 { Known (mounted_tape m.now) result }
    ensures next_le_next { (g.next ≤ result.next) × (result.next ≤ length counts.now) }
    ensures result_after { leads_to measured (mounted_tape m.now) counts.now answers.new result
        ≡ leads_to measured (mounted_tape m.now) counts.now answers.old g }
    ensures answers_len_unchanged { length answers.new ≡ length answers.old }
{
    match (g.finding, g.position.left) {
        (Ok(a), Duration::T(t)) => go_inside(m, measured, counts, answers, g, a, t),
        _ => g,
    }
}

// Every call of a run from a position that its callers know to be fine, into a table that they know to hold their rows.
fn run(
    m: &Mounted<'_>,
    measured: bool,
    pos: Position,
    a: Result<Finding, Fault>,
    counts: &[u32],
    answers: &mut [u64],
)
    requires assayed { Assayed (mounted_tape m.now) pos a }
    requires holds_rows { HoldsRows counts.now answers.old }
    ensures { answers.new ≡ put_all answer_row answers.old 0 (run_rows (player_of measured (mounted_tape m.now)) pos counts.now) }
{
    let mut g = Going {
        position: pos,
        finding: a,
        next: 0,
    };
    while g.next < counts.len() {
        g = go_far(m, measured, counts, answers, g);
        if g.next < counts.len() {
            g = go_on(m, measured, counts, answers, g);
        }
    }
}

// The same, or 10 where the table does not hold their rows.
fn run_fitting(
    m: &Mounted<'_>,
    measured: bool,
    pos: Position,
    a: Finding,
    counts: &[u32],
    answers: &mut [u64],
) -> Result<(), Refusal>
    requires { Assayed (mounted_tape m.now) pos (Ok a) }
    ensures value { result ≡ room_for counts.now answers.old }
    ensures answers_after { answers.new
        ≡ (eqb (room_no counts.now answers.old) 0 ⇒ put_all answer_row answers.old 0
        (run_rows (player_of measured (mounted_tape m.now)) pos counts.now) ∣ answers.old) }
{
    if answers.len() / AnswerRow::WORDS < counts.len() {
        return Err(Refusal::NoRoom);
    }
    run(m, measured, pos, Ok(a), counts, answers);
    Ok(())
}

// A run of calls of the measured player, or of the source's play, from a position: the position is judged once, and each row as it is
// reached.
#[tactic(auto, unfolding(crate::specs::Runs::run_answer, crate::specs::Runs::run_table, crate::specs::Runs::checked, crate::specs::Runs::player_of))]
pub fn play_run(
    m: &Mounted<'_>,
    pos: Position,
    measured: bool,
    counts: &[u32],
    answers: &mut [u64],
) -> Result<(), Refusal>
    ensures value { result ≡ run_answer (mounted_tape m.now) pos counts.now answers.old }
    ensures answers_after { answers.new ≡ run_table measured (mounted_tape m.now) pos counts.now answers.old }
{
    match assay(m, pos) {
        Ok(a) => run_fitting(m, measured, pos, a, counts, answers),
        Err(Fault::NotValid) => Err(Refusal::NoPosition),
        Err(Fault::NotFormed) => Err(Refusal::BadRow),
    }
}
