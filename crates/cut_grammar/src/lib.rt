// The grammar of a tape: what its head, a TZX piece and a TAP block are; what every piece is cut with;
// the head and one TAP block cut out of the bytes.
// What a reading makes of them is not here.
#![tactic(auto)]

ghost use Rattle.std.specs.Prelude.{◌≡◌, ◌≤◌, IfOk, IfErr, IsOk, length};
ghost use Rattle.cut_grammar.specs.Grammar.{counted_at, span_read, sealed};
ghost use Rattle.cut_grammar.specs.Cut.{signature, starts_at, head_at, tap_block, tap_at};
ghost use Rattle.cut_grammar.specs.declared.NotCut.TheVariants as not_cut;

use cut_fields::{Reader, Short};

// What 11 holds.
#[derive(Clone, Copy)]
pub struct TurboData {
    pub pilot: u32,
    pub sync1: u32,
    pub sync2: u32,
    pub zero: u32,
    pub one: u32,
    pub pilots: u32,
    pub last: u32,
    pub pause: u32,
    pub from: u64,
    pub size: u32,
}

// What 19 holds: its numbers, and the places of its four tables. The alphabets' sizes are `asp0` and `asd0` as they are written, `asp` and
// `asd` as they are meant.
#[derive(Clone, Copy)]
pub struct GeneralizedData {
    pub length: u32,
    pub pause: u32,
    pub totp: u32,
    pub npp: u32,
    pub asp0: u32,
    pub asp: u32,
    pub pilot: u64,
    pub entries: u64,
    pub totd: u32,
    pub npd: u32,
    pub asd0: u32,
    pub asd: u32,
    pub nb: u32,
    pub symbols: u64,
    pub from: u64,
    pub size: u64,
}

// One piece: its numbers as they are, and the places of what it holds; what neither code nor law reads is passed over and not kept.
#[derive(Clone, Copy)]
pub enum Piece {
    Standard {
        pause: u32,
        from: u64,
        size: u32,
    },
    Turbo(TurboData),
    Tone {
        half: u32,
        count: u32,
    },
    Pulses {
        count: u32,
        from: u64,
    },
    Pure {
        zero: u32,
        one: u32,
        last: u32,
        pause: u32,
        from: u64,
        size: u32,
    },
    Generalized(GeneralizedData),
    Pause {
        ms: u32,
    },
    GroupStart {
        from: u64,
        size: u32,
    },
    GroupEnd,
    LoopStart {
        times: u32,
    },
    LoopEnd,
    Stop48 {
        length: u32,
    },
    Text {
        from: u64,
        size: u32,
    },
    Message,
    Archive,
    Hardware,
    Custom,
    Glue,
}

// A whole piece, and the place past it.
#[derive(Clone, Copy)]
pub struct Whole {
    pub piece: Piece,
    pub next: u64,
}

// Why no piece stands after a kind byte: a kind without a row here, and whether the format describes it all the same; the first field
// that came up short; or a 19 whose data bits pass 32 bits, at the place of its data bytes.
#[derive(Clone, Copy, PartialEq, Eq)]
pub enum NotCut {
    Unknown(bool),
    Short(Short),
    Overflow(u64),
}

impl From<Short> for NotCut {
    ghost from_gives = { λ e r. r ≡ not_cut.Short e };

    fn from(e: Short) -> NotCut {
        NotCut::Short(e)
    }
}

// What stands after a kind byte.
pub type Body = Result<Whole, NotCut>;

// What stands at a place of a TZX.
#[derive(Clone, Copy)]
pub enum Taken {
    End,
    Whole {
        kind: u8,
        at: u64,
        next: u64,
        piece: Piece,
    },
    Unknown {
        kind: u8,
        described: bool,
    },
    Short {
        kind: u8,
        place: u64,
        width: u64,
    },
    Overflow {
        kind: u8,
        place: u64,
    },
}

// What stands at a place of a TAP.
#[derive(Clone, Copy)]
pub enum TakenTap {
    End,
    Lone,
    Block { from: u64, size: u32, next: u64 },
    Short { place: u64, width: u64 },
}

// What a tape begins with: what stands at its head, as `Taken` and `TakenTap` say it of other places. As a Result it would be no plainer:
// one function alone reads it, and its match of three arms is shorter than the conversion that `?` would ask for.
#[derive(Clone, Copy)]
pub enum Heading {
    Version { major: u8, minor: u8 },
    BadSignature,
    Short { place: u64, width: u64 },
}

// A length of `width` bytes and as many bytes: their place, and their number.
#[tactic(auto, using(cut_fields::proofs::Runs::field_stuck), unfolding(crate::specs::Grammar::counted_at, cut_fields::specs::Field::place_of))]
pub fn counted(r: &mut Reader, width: u64) -> Result<(u64, u32), Short>
    ensures tape { r.new.tape ≡ r.old.tape }
    ensures there { IfOk result (λ x. counted_at r.old.tape.now r.old.at width ≡ span_read x.0 x.1 r.new.at) }
    ensures whole { IfOk result (λ x. IsOk r.new.at) }
    ensures short { IfErr result (λ e. (r.new.at ≡ Err e) × ((counted_at r.old.tape.now r.old.at width).cursor ≡ Err e)) }
{
    let size = r.number(width)?;
    let from = r.at?;
    r.skip(size as u64)?;
    Ok((from, size))
}

// The numbers that 19 begins with, as they are written.
#[derive(Clone, Copy)]
pub struct GeneralHead {
    pub length: u32,
    pub pause: u32,
    pub totp: u32,
    pub npp: u32,
    pub asp: u32,
    pub totd: u32,
    pub npd: u32,
    pub asd: u32,
}

// A body's answer, where the piece ends with the body.
#[tactic(auto, unfolding(crate::specs::Grammar::sealed))]
pub fn sealed(end: u64, inner: Body) -> Body
    ensures { result ≡ sealed end inner }
{
    inner.map(|whole| Whole { next: end, ..whole })
}

// A length of 2 bytes and data.
#[tactic(auto, unfolding(crate::specs::Cut::tap_block))]
fn tap_block(tape: &[u8], at: u64) -> Result<TakenTap, Short>
    ensures there { IfOk result (λ t. tap_block (counted_at tape.now (Ok at) 2) (counted_at tape.now (Ok at) 2).cursor ≡ t) }
    ensures short { IfErr result (λ e. (counted_at tape.now (Ok at) 2).cursor ≡ Err e) }
{
    let mut r = Reader { tape, at: Ok(at) };
    let (from, size) = counted(&mut r, 2)?;
    let next = r.at?;
    Ok(TakenTap::Block { from, size, next })
}

// The block at a place of a TAP.
#[tactic(auto, unfolding(crate::specs::Cut::tap_at, crate::specs::Cut::tap_block))]
pub fn cut_tap(tape: &[u8], at: u64) -> TakenTap
    ensures { result ≡ tap_at tape.now at }
{
    let end = tape.len() as u64;
    if end <= at {
        return TakenTap::End;
    }
    if at + 1 == end {
        return TakenTap::Lone;
    }
    match tap_block(tape, at) {
        Ok(block) => block,
        Err(Short { place, width }) => TakenTap::Short { place, width },
    }
}

const SIGNATURE: [u8; 8] = [0x5A, 0x58, 0x54, 0x61, 0x70, 0x65, 0x21, 0x1A];

// Whether a tape of 8 bytes or more begins with the signature.
#[tactic(auto, unfolding(crate::specs::Cut::starts_at))]
fn signed(tape: &[u8]) -> bool
    requires { 8 ≤ length tape.now }
    ensures { result ≡ starts_at tape.now 0 signature }
{
    tape.starts_with(&SIGNATURE)
}

// What a tape begins with.
#[tactic(auto, unfolding(crate::specs::Cut::head_at))]
pub fn head(tape: &[u8]) -> Heading
    ensures { result ≡ head_at tape.now }
{
    if tape.len() < 10 {
        return Heading::Short {
            place: 0,
            width: 10,
        };
    }
    if signed(tape) {
        Heading::Version {
            major: tape[8],
            minor: tape[9],
        }
    } else {
        Heading::BadSignature
    }
}
