// Each answer of the load, the queries and the players as words, told into a lent row.
#![tactic(auto)]

ghost use Rattle.std.specs.Prelude.{◌≡◌, ◌≤◌, ℕ, List, length, get_or};
ghost use Rattle.law_base.specs.Rules.{◌⇒◌, ◌∣◌};
ghost use Rattle.refusals.specs.Refusals.{no_room};
ghost use Rattle.text_out.specs.Out.{fits, told};
ghost use Rattle.host_words.specs.Words.{words_of};
ghost use Rattle.host_answers.specs.Answers.{Reply, reply_of, number_of, values_of, number_words, mark_words, time_words, reached_words, loaded_words};
ghost use Rattle.host_answers.specs.Answers.{by_refusal, by_fault, by_unread, inside_words, refused_with, met_of};

use host_words::{flag, span_of, spot_of};
use load_source::Failure;
use load_tape::{Loaded, NotLoaded};
use play_entries::Duration;
use play_walk::{Fault, Position, Reached};
use refusals::{NO_ROOM, Refusal, TAPE_BAD};

// The words into a row that holds them, and 0; else 10, and nothing is written.
#[tactic(auto, unfolding(text_out::specs::Out::told))]
fn tell(words: &[u64], answer: &mut [u64]) -> u32
    ensures value { result ≡ (fits words.now answer.old ⇒ 0 ∣ no_room) }
    ensures answer_after { answer.new ≡ told words.now answer.old }
{
    if answer.len() < words.len() {
        return NO_ROOM;
    }
    answer[..words.len()].copy_from_slice(words);
    0
}

// A value that a host gets as words.
pub trait Words {
    ghost words: { Self → List ℕ };

    // The words into a row that holds them, and 0; else 10, and nothing is written.
    fn tell(self, answer: &mut [u64]) -> u32
        ensures value { result ≡ (fits (words self) answer.old ⇒ 0 ∣ no_room) }
        ensures answer_after { answer.new ≡ told (words self) answer.old };
}

impl Words for u64 {
    ghost words = { number_words };

    fn tell(self, answer: &mut [u64]) -> u32 {
        tell(&[self], answer)
    }
}

impl Words for bool {
    ghost words = { mark_words };

    fn tell(self, answer: &mut [u64]) -> u32 {
        tell(&[flag(self)], answer)
    }
}

impl Words for Duration {
    ghost words = { time_words };

    fn tell(self, answer: &mut [u64]) -> u32 {
        let s = span_of(self);
        tell(&[s.endless, s.left], answer)
    }
}

impl Words for Position {
    ghost words = { words_of };

    #[tactic(auto, unfolding(host_words::specs::Words::words_of))]
    fn tell(self, answer: &mut [u64]) -> u32 {
        let f = spot_of(self.phase);
        let d = span_of(self.left);
        let w = [
            self.block, f.phase, f.item, f.part, f.half, d.endless, d.left,
        ];
        tell(&w, answer)
    }
}

impl Words for Reached {
    ghost words = { reached_words };

    #[tactic(auto, unfolding(crate::specs::Answers::stand_words, host_words::specs::Words::words_of))]
    fn tell(self, answer: &mut [u64]) -> u32 {
        let s = self.stand;
        let f = spot_of(s.position.phase);
        let d = span_of(s.position.left);
        let w = [
            self.how as u64,
            s.passed,
            flag(s.level),
            s.position.block,
            f.phase,
            f.item,
            f.part,
            f.half,
            d.endless,
            d.left,
        ];
        tell(&w, answer)
    }
}

impl Words for Loaded {
    ghost words = { loaded_words };

    #[tactic(auto, unfolding(crate::specs::Answers::format_number))]
    fn tell(self, answer: &mut [u64]) -> u32 {
        tell(&[self.format as u64, self.blocks, self.tones], answer)
    }
}

// A refusal with words: the words where the row holds all of them, and the number whether it does or not.
#[tactic(auto, using(crate::proofs::Telling::number_stands), unfolding(crate::specs::Answers::values_of))]
pub fn tell_refused(no: u32, words: &[u64], answer: &mut [u64]) -> u32
    ensures value { result ≡ number_of (refused_with no words.now) answer.old }
    ensures answer_after { answer.new ≡ values_of (refused_with no words.now) answer.old }
{
    tell(words, answer);
    no
}

// Why there is no value: a number, and what it tells beside it.
pub trait Refused {
    ghost reply: { Self → Reply };

    fn tell_no(self, answer: &mut [u64]) -> u32
        ensures value { result ≡ number_of (reply self) answer.old }
        ensures answer_after { answer.new ≡ values_of (reply self) answer.old };
}

impl Refused for Refusal {
    ghost reply = { by_refusal };

    fn tell_no(self, answer: &mut [u64]) -> u32 {
        tell_refused(self.number(), &[], answer)
    }
}

impl Refused for Fault {
    ghost reply = { by_fault };

    fn tell_no(self, answer: &mut [u64]) -> u32 {
        let fault = self.number();
        tell_refused(fault, &[], answer)
    }
}

// What an attempt to read met, as words; what its cause doesn't name is 0.
#[derive(Clone, Copy)]
pub struct Met {
    pub cause: u64,
    pub kind: u64,
    pub at: u64,
    pub place: u64,
    pub width: u64,
    pub length: u64,
}

impl Met {
    const NOTHING: Met = Met {
        cause: 0,
        kind: 0,
        at: 0,
        place: 0,
        width: 0,
        length: 0,
    };
}

#[tactic(auto, unfolding(crate::specs::Answers::met_of))]
fn met_words(f: Failure) -> Met
    ensures { result ≡ met_of f }
{
    match f {
        Failure::Short { place, width } => Met {
            place,
            width,
            ..Met::NOTHING
        },
        Failure::BadSignature => Met {
            cause: 1,
            ..Met::NOTHING
        },
        Failure::ShortPiece {
            kind,
            at,
            place,
            width,
        } => Met {
            cause: 2,
            kind: kind as u64,
            at,
            place,
            width,
            length: 0,
        },
        Failure::Length { kind, at, length } => Met {
            cause: 3,
            kind: kind as u64,
            at,
            length: length as u64,
            ..Met::NOTHING
        },
    }
}

impl Refused for NotLoaded {
    ghost reply = { by_unread };

    #[tactic(auto, unfolding(crate::specs::Answers::both_words))]
    fn tell_no(self, answer: &mut [u64]) -> u32 {
        match self {
            NotLoaded::Unread { tzx, tap } => {
                let x = met_words(tzx);
                let y = met_words(tap);
                let w = [
                    x.cause, x.kind, x.at, x.place, x.width, x.length, y.place, y.width,
                ];
                tell_refused(TAPE_BAD, &w, answer)
            }
            NotLoaded::Refused(k) => tell_refused(k, &[], answer),
        }
    }
}

// An answer: its value's words, or why there is none.
#[tactic(auto, unfolding(crate::specs::Answers::number_of, crate::specs::Answers::values_of))]
pub fn tell_answer<T: Words, E: Refused>(a: Result<T, E>, answer: &mut [u64]) -> u32
    ensures value { result ≡ number_of (reply_of T.words E.reply a) answer.old }
    ensures answer_after { answer.new ≡ values_of (reply_of T.words E.reply a) answer.old }
{
    match a {
        Ok(value) => value.tell(answer),
        Err(no) => no.tell_no(answer),
    }
}

// The answer to a call of n that ends inside its entry, straight on the position's words; our crates alone call it.
#[tactic(auto, unfolding(crate::specs::Answers::inside_words))]
pub fn tell_inside(position: &[u64], n: u64, level: bool, answer: &mut [u64]) -> u32
    requires { (7 ≤ length position.now) × (n ≤ get_or position.now 6 0) }
    ensures value { result ≡ (fits (inside_words position.now n level) answer.old ⇒ 0 ∣ no_room) }
    ensures answer_after { answer.new ≡ told (inside_words position.now n level) answer.old }
{
    let w = [
        0,
        0,
        flag(level),
        position[0],
        position[1],
        position[2],
        position[3],
        position[4],
        position[5],
        position[6] - n,
    ];
    tell(&w, answer)
}
