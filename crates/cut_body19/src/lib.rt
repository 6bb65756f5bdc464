// What stands after the kind byte of 19: its numbers, its four tables, and the test of its data bits.
#![tactic(auto)]

ghost use Rattle.std.specs.Prelude.{◌≡◌, ◌-◌, IfOk, IfErr, IsOk};
ghost use Rattle.cut_grammar.specs.Grammar.{read_at, bits_of, or_full, held_if};
ghost use Rattle.cut_grammar.specs.Kinds.{stream19, kind19};
ghost use Rattle.cut_grammar.specs.Steps.{head19, head_read};

use cut_fields::{Reader, Short};
use cut_grammar::{Body, GeneralHead, GeneralizedData, NotCut, Piece, Whole};

// The numbers that 19 begins with, as they are written.
#[tactic(auto, using(cut_grammar::proofs::Turns::stuck), unfolding(cut_grammar::specs::Steps::head19))]
fn head(r: &mut Reader) -> Result<GeneralHead, Short>
    ensures tape { r.new.tape ≡ r.old.tape }
    ensures there { IfOk result (λ h. head19 r.old.tape.now r.old.at ≡ head_read h r.new.at) }
    ensures whole { IfOk result (λ h. IsOk r.new.at) }
    ensures short { IfErr result (λ e. (r.new.at ≡ Err e) × ((head19 r.old.tape.now r.old.at).cursor ≡ Err e)) }
{
    let length = r.number(4)?;
    let pause = r.number(2)?;
    let totp = r.number(4)?;
    let npp = r.number(1)?;
    let asp = r.number(1)?;
    let totd = r.number(4)?;
    let npd = r.number(1)?;
    let asd = r.number(1)?;
    Ok(GeneralHead {
        length,
        pause,
        totp,
        npp,
        asp,
        totd,
        npd,
        asd,
    })
}

// What an alphabet's size means.
#[tactic(auto, unfolding(cut_grammar::specs::Grammar::or_full))]
fn or_full(full: u32, size: u32) -> u32
    ensures { result ≡ or_full full size }
{
    if size == 0 { full } else { size }
}

// How many symbols of an alphabet are there.
#[tactic(auto, unfolding(cut_grammar::specs::Grammar::held_if))]
fn held_if(uses: u32, size: u32) -> u32
    ensures { result ≡ held_if uses size }
{
    if uses == 0 { 0 } else { size }
}

// The bits that each of `size` symbols takes.
#[tactic(auto, using(crate::proofs::Digits::digits_left))]
fn symbol_bits(size: u32) -> u32
    ensures { result ≡ bits_of (size - 1) }
{
    u32::BITS - size.saturating_sub(1).leading_zeros()
}

// The data bytes of 19, whose count of bits is tested before them.
#[tactic(auto, using(crate::proofs::Fitting::bits_fit, crate::proofs::Fitting::bits_over, crate::proofs::Fitting::stream_stuck), unfolding(cut_grammar::specs::Grammar::whole_at))]
fn stream(mut r: Reader, bits: u64, general: GeneralizedData) -> Body
    ensures { result ≡ read_at (stream19 bits general) r.entry.tape.now r.entry.at }
{
    if bits > u32::MAX as u64 {
        return Err(NotCut::Overflow(r.at?));
    }
    let next = r.each(general.size, 1)?;
    Ok(Whole {
        piece: Piece::Generalized(general),
        next,
    })
}

// 19
#[tactic(auto, using(crate::proofs::Fitting::read19, crate::proofs::Fitting::stream_stuck, crate::proofs::Fitting::bits_product, cut_grammar::proofs::Turns::stuck), unfolding(cut_fields::specs::Field::place_of, cut_grammar::specs::Steps::tables19))]
pub fn general(mut r: Reader, full: u32) -> Body
    ensures { result ≡ read_at (kind19 full) r.entry.tape.now r.entry.at }
{
    let h = head(&mut r)?;
    let asp = or_full(full, h.asp);
    let asd = or_full(full, h.asd);
    let nb = symbol_bits(asd);
    let bits = nb as u64 * h.totd as u64;
    let pilot = r.at?;
    let entries = r.groups(held_if(h.totp, asp) as u64, 1, h.npp, 2)?;
    let symbols = r.groups(h.totp as u64, 1, 1, 2)?;
    let from = r.groups(held_if(h.totd, asd) as u64, 1, h.npd, 2)?;
    stream(
        r,
        bits,
        GeneralizedData {
            length: h.length,
            pause: h.pause,
            totp: h.totp,
            npp: h.npp,
            asp0: h.asp,
            asp,
            pilot,
            entries,
            totd: h.totd,
            npd: h.npd,
            asd0: h.asd,
            asd,
            nb,
            symbols,
            from,
            size: (bits + 7) / 8,
        },
    )
}
