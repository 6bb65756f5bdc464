// A generalised piece (19) with the tape that it is of: its tables lie there where its numbers say.
ghost use Rattle.std.specs.Prelude.{◌≡◌, ◌+◌, ◌*◌, ◌%◌, ◌≤◌, ◌<◌};
ghost use Rattle.load_general.specs.General.{symbol_number};
ghost use Rattle.load_general.specs.Held.{Held};

use crate::{byte_at, power, shift};
use cut_grammar::GeneralizedData;

#[derive(Clone, Copy)]
pub struct Piece19<'a> {
    pub tape: &'a [u8],
    pub g: GeneralizedData,
    pub ghost held: { Held tape.now g },
}

impl Piece19<'_> {
    // The symbol number at a bit of the data bytes, or `more` bits further down its byte; its callers know the bits to lie in it.
    pub fn number_at(&self, bit: u32, more: u32) -> u32
        requires { (self.now.g.nb < 8) × (bit < self.now.g.nb * self.now.g.totd) × (bit % 8 + more ≤ 7) }
        ensures { result ≡ symbol_number self.now.tape.now self.now.g bit more }
    {
        let byte = byte_at(self.tape, self.g.from + bit as u64 / 8);
        (byte >> shift(bit, more)) & (power(self.g.nb) - 1)
    }
}
