// The query of a block's name.
ghost use Rattle.std.specs.Prelude.{◌≡◌, ◌+◌, ◌≤◌, length};
ghost use Rattle.text_out.specs.Out.{Wrote};
ghost use Rattle.text_name.specs.Names.{name_of};
ghost use Rattle.play_entries.specs.Mounted.{mounted_tape};
ghost use Rattle.ask.specs.Queries.{name_answer, name_bytes};

use crate::asked;
use play_entries::Mounted;
use refusals::Refusal;
use rows::Block;
use text_name::put_name;
use text_out::Writer;

// A row's name into lent bytes, and its length; its callers know its data and its given name to lie in the tape.
fn put(out: &mut [u8], tape: &[u8], r: Block) -> usize
    requires { (r.start + r.size ≤ length tape.now) × (r.text + r.chars ≤ length tape.now) × (r.chars ≤ 1048576) }
    ensures { Wrote out.old 0 (name_of tape.now r) out.new result }
{
    let mut w = Writer::over(out);
    put_name(&mut w, tape, r);
    w.at
}

// A block's name as UTF-8 into `out`, and the name's length; a refusal writes no byte.
#[tactic(auto, using(crate::proofs::Named::no_answer, crate::proofs::Named::no_bytes))]
pub fn block_name(m: &Mounted<'_>, i: u64, out: &mut [u8]) -> Result<u64, Refusal>
    ensures value { result ≡ name_answer (mounted_tape m.now) i out.old }
    ensures out_after { out.new ≡ name_bytes (mounted_tape m.now) i out.old }
{
    let r = asked(m, i)?;
    let mut none = [0u8; 1];
    let n = put(&mut none, m.tape, r);
    if out.len() < n {
        return Err(Refusal::NoRoom);
    }
    put(out, m.tape, r);
    Ok(n as u64)
}
