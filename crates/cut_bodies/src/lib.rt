// What stands after a kind byte: a function for each kind that has fields, but 19.
// Kinds that read alike (20, 24 and 2A; 21 and 30) stay apart: each answers for its own row of the grammar, which one function for all
// would have to be told, in a longer contract.
#![tactic(auto, using(cut_grammar::proofs::Turns::stuck), unfolding(cut_fields::specs::Field::place_of, cut_grammar::specs::Grammar::read_at, cut_grammar::specs::Grammar::pass_at, cut_grammar::specs::Grammar::whole_at, cut_grammar::specs::Kinds::kind10, cut_grammar::specs::Kinds::kind11, cut_grammar::specs::Kinds::kind12, cut_grammar::specs::Kinds::kind13, cut_grammar::specs::Kinds::kind14, cut_grammar::specs::Kinds::kind20, cut_grammar::specs::Kinds::kind21, cut_grammar::specs::Kinds::kind24, cut_grammar::specs::Kinds::kind_2a, cut_grammar::specs::Kinds::kind30, cut_grammar::specs::Kinds::kind31, cut_grammar::specs::Kinds::info32, cut_grammar::specs::Kinds::kind32, cut_grammar::specs::Kinds::kind33, cut_grammar::specs::Kinds::kind35))]

ghost use Rattle.std.specs.Prelude.{◌≡◌, IfErr, IfOk, IsOk};
ghost use Rattle.cut_grammar.specs.Grammar.{texts_at, read_at};
ghost use Rattle.cut_grammar.specs.Kinds.{kind10, kind11, kind12, kind13, kind14, kind20, kind21, kind24, kind_2a, kind30, kind31, info32};
ghost use Rattle.cut_grammar.specs.Kinds.{kind32, kind33, kind35};

use cut_fields::{Reader, Short};
use cut_grammar::{Body, Piece, TurboData, Whole, counted, sealed};

// 10
pub fn standard(mut r: Reader) -> Body
    ensures { result ≡ read_at kind10 r.entry.tape.now r.entry.at }
{
    let pause = r.number(2)?;
    let (from, size) = counted(&mut r, 2)?;
    Ok(Whole {
        piece: Piece::Standard { pause, from, size },
        next: r.at?,
    })
}

// 11
pub fn turbo(mut r: Reader) -> Body
    ensures { result ≡ read_at kind11 r.entry.tape.now r.entry.at }
{
    let pilot = r.number(2)?;
    let sync1 = r.number(2)?;
    let sync2 = r.number(2)?;
    let zero = r.number(2)?;
    let one = r.number(2)?;
    let pilots = r.number(2)?;
    let last = r.number(1)?;
    let pause = r.number(2)?;
    let (from, size) = counted(&mut r, 3)?;
    Ok(Whole {
        piece: Piece::Turbo(TurboData {
            pilot,
            sync1,
            sync2,
            zero,
            one,
            pilots,
            last,
            pause,
            from,
            size,
        }),
        next: r.at?,
    })
}

// 12
pub fn tone(mut r: Reader) -> Body
    ensures { result ≡ read_at kind12 r.entry.tape.now r.entry.at }
{
    let half = r.number(2)?;
    let count = r.number(2)?;
    Ok(Whole {
        piece: Piece::Tone { half, count },
        next: r.at?,
    })
}

// 13
pub fn pulses(mut r: Reader) -> Body
    ensures { result ≡ read_at kind13 r.entry.tape.now r.entry.at }
{
    let count = r.number(1)?;
    let from = r.at?;
    r.each(count as u64, 2)?;
    Ok(Whole {
        piece: Piece::Pulses { count, from },
        next: r.at?,
    })
}

// 14
pub fn pure(mut r: Reader) -> Body
    ensures { result ≡ read_at kind14 r.entry.tape.now r.entry.at }
{
    let zero = r.number(2)?;
    let one = r.number(2)?;
    let last = r.number(1)?;
    let pause = r.number(2)?;
    let (from, size) = counted(&mut r, 3)?;
    Ok(Whole {
        piece: Piece::Pure {
            zero,
            one,
            last,
            pause,
            from,
            size,
        },
        next: r.at?,
    })
}

// 20
pub fn pause(mut r: Reader) -> Body
    ensures { result ≡ read_at kind20 r.entry.tape.now r.entry.at }
{
    let ms = r.number(2)?;
    Ok(Whole {
        piece: Piece::Pause { ms },
        next: r.at?,
    })
}

// 21
pub fn group_start(mut r: Reader) -> Body
    ensures { result ≡ read_at kind21 r.entry.tape.now r.entry.at }
{
    let (from, size) = counted(&mut r, 1)?;
    Ok(Whole {
        piece: Piece::GroupStart { from, size },
        next: r.at?,
    })
}

// 24
pub fn loop_start(mut r: Reader) -> Body
    ensures { result ≡ read_at kind24 r.entry.tape.now r.entry.at }
{
    let times = r.number(2)?;
    Ok(Whole {
        piece: Piece::LoopStart { times },
        next: r.at?,
    })
}

// 2A
pub fn stop48(mut r: Reader) -> Body
    ensures { result ≡ read_at kind_2a r.entry.tape.now r.entry.at }
{
    let length = r.number(4)?;
    Ok(Whole {
        piece: Piece::Stop48 { length },
        next: r.at?,
    })
}

// 30
pub fn text(mut r: Reader) -> Body
    ensures { result ≡ read_at kind30 r.entry.tape.now r.entry.at }
{
    let (from, size) = counted(&mut r, 1)?;
    Ok(Whole {
        piece: Piece::Text { from, size },
        next: r.at?,
    })
}

// 31
pub fn message(mut r: Reader) -> Body
    ensures { result ≡ read_at kind31 r.entry.tape.now r.entry.at }
{
    r.skip(1)?;
    counted(&mut r, 1)?;
    Ok(Whole {
        piece: Piece::Message,
        next: r.at?,
    })
}

// The texts of 32: an id, a length and as many bytes each. A text at least is passed in two bytes, so n costs no more than the tape.
#[tactic(auto, using(cut_grammar::proofs::Turns::texts_more, cut_grammar::proofs::Turns::texts_none, cut_grammar::proofs::Turns::stuck))]
fn texts(r: &mut Reader, n: u32) -> Result<(), Short>
    ensures tape { r.new.tape ≡ r.old.tape }
    ensures past { r.new.at ≡ texts_at r.old.tape.now r.old.at n }
    ensures whole { IfOk result (λ x. IsOk r.new.at) }
    ensures short { IfErr result (λ e. r.new.at ≡ Err e) }
{
    for _ in 0..n {
        r.skip(1)?;
        counted(r, 1)?;
    }
    r.at?;
    Ok(())
}

// What the body of 32 holds; the tape is cut where the body ends.
fn info(mut r: Reader) -> Body
    ensures { result ≡ read_at info32 r.entry.tape.now r.entry.at }
{
    let count = r.number(1)?;
    texts(&mut r, count)?;
    Ok(Whole {
        piece: Piece::Archive,
        next: r.at?,
    })
}

// 32
#[tactic(auto, using(cut_grammar::proofs::Turns::stuck), unfolding(cut_grammar::specs::Grammar::read_at, cut_grammar::specs::Grammar::enclosed, cut_grammar::specs::Kinds::kind32))]
pub fn archive(mut r: Reader) -> Body
    ensures { result ≡ read_at kind32 r.entry.tape.now r.entry.at }
{
    let length = r.number(2)?;
    let at = r.at;
    let end = r.skip(length as u64)?;
    let tape = &r.tape[..end as usize];
    sealed(end, info(Reader { tape, at }))
}

// 33
pub fn hardware(mut r: Reader) -> Body
    ensures { result ≡ read_at kind33 r.entry.tape.now r.entry.at }
{
    let count = r.number(1)?;
    r.groups(count as u64, 1, 2, 1)?;
    Ok(Whole {
        piece: Piece::Hardware,
        next: r.at?,
    })
}

// 35
pub fn custom(mut r: Reader) -> Body
    ensures { result ≡ read_at kind35 r.entry.tape.now r.entry.at }
{
    r.skip(16)?;
    counted(&mut r, 4)?;
    Ok(Whole {
        piece: Piece::Custom,
        next: r.at?,
    })
}
