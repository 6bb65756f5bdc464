// One piece of a TZX, cut out of the bytes: every kind from 0 to 255 has its row.
#![tactic(auto)]

ghost use Rattle.std.specs.Prelude.{◌≡◌};
ghost use Rattle.cut_grammar.specs.Grammar.{read_at};
ghost use Rattle.cut_grammar.specs.Kinds.{kind_5a, kind_of};
ghost use Rattle.cut_grammar.specs.Cut.{cut_at, taken_as};

use cut_bodies::{
    archive, custom, group_start, hardware, loop_start, message, pause, pulses, pure, standard,
    stop48, text, tone, turbo,
};
use cut_body19::general;
use cut_fields::{Reader, Short};
use cut_grammar::{Body, NotCut, Piece, Taken, Whole};

// 5A
#[tactic(auto, using(cut_grammar::proofs::Turns::stuck), unfolding(cut_grammar::specs::Grammar::read_at, cut_grammar::specs::Grammar::pass_at, cut_grammar::specs::Grammar::whole_at, cut_grammar::specs::Kinds::kind_5a))]
fn glue(mut r: Reader) -> Body
    ensures { result ≡ read_at kind_5a r.entry.tape.now r.entry.at }
{
    let next = r.skip(9)?;
    Ok(Whole {
        piece: Piece::Glue,
        next,
    })
}

// What stands after a kind byte, from a place on: every kind from 0 to 255 has its row.
#[tactic(auto, unfolding(cut_grammar::specs::Grammar::read_at, cut_grammar::specs::Grammar::whole_at, cut_grammar::specs::Kinds::kind22, cut_grammar::specs::Kinds::kind25, cut_grammar::specs::Kinds::kinds, cut_grammar::specs::Kinds::kind_of))]
fn body_of(tape: &[u8], kind: u8, from: u64, full: u32) -> Body
    ensures { result ≡ read_at (kind_of full kind) tape.now (Ok from) }
{
    let r = Reader { tape, at: Ok(from) };
    match kind {
        0x10 => standard(r),
        0x11 => turbo(r),
        0x12 => tone(r),
        0x13 => pulses(r),
        0x14 => pure(r),
        0x15..=0x18 => Err(NotCut::Unknown(true)),
        0x19 => general(r, full),
        0x20 => pause(r),
        0x21 => group_start(r),
        0x22 => Ok(Whole {
            piece: Piece::GroupEnd,
            next: from,
        }),
        0x23 => Err(NotCut::Unknown(true)),
        0x24 => loop_start(r),
        0x25 => Ok(Whole {
            piece: Piece::LoopEnd,
            next: from,
        }),
        0x26..=0x28 => Err(NotCut::Unknown(true)),
        0x2A => stop48(r),
        0x2B => Err(NotCut::Unknown(true)),
        0x30 => text(r),
        0x31 => message(r),
        0x32 => archive(r),
        0x33 => hardware(r),
        0x34 => Err(NotCut::Unknown(true)),
        0x35 => custom(r),
        0x40 => Err(NotCut::Unknown(true)),
        0x5A => glue(r),
        _ => Err(NotCut::Unknown(false)),
    }
}

// A body under its kind and the place of its piece.
#[tactic(auto, unfolding(cut_grammar::specs::Cut::taken_as))]
fn named(kind: u8, at: u64, body: Body) -> Taken
    ensures { result ≡ taken_as kind at body }
{
    match body {
        Ok(Whole { piece, next }) => Taken::Whole {
            kind,
            at,
            next,
            piece,
        },
        Err(NotCut::Unknown(described)) => Taken::Unknown { kind, described },
        Err(NotCut::Short(Short { place, width })) => Taken::Short { kind, place, width },
        Err(NotCut::Overflow(place)) => Taken::Overflow { kind, place },
    }
}

// The piece at a place of a TZX, where an alphabet of size 0 has `full` symbols.
#[tactic(auto, unfolding(cut_grammar::specs::Cut::cut_at))]
pub fn cut(tape: &[u8], at: u64, full: u32) -> Taken
    ensures { result ≡ cut_at tape.now at full }
{
    if tape.len() as u64 <= at {
        return Taken::End;
    }
    let kind = tape[at as usize];
    named(kind, at, body_of(tape, kind, at + 1, full))
}
