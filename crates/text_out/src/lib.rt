// Text into lent bytes: each writer clips at the end of them and counts on, so a dry run into no bytes gives the length.
#![tactic(auto)]

ghost use Rattle.std.specs.Prelude.{◌≡◌, ℕ, List, ◌+◌, ◌*◌, ◌^◌, ◌<◌, ◌≤◌, [], ◌∷◌, ◌++◌, length};
ghost use Rattle.text_out.specs.Out.{Wrote, ascii, decimal, latin1, latin, each_byte, refused_text, refused_line};
ghost use Rattle.text_out.specs.Writes.{Writes};

// Bytes lent for a text, and how far it has come: the place of its next byte, past their end too.
#[derive(Drop)]
pub struct Writer<'a> {
    pub out: &'a mut [u8],
    pub at: usize,
}

// How a byte is told: its text, of at most so many bytes. Our crates alone call what writes it.
pub trait Spelling {
    ghost text: { ℕ → List ℕ };

    ghost most: { ℕ };

    fn put(w: &mut Writer<'_>, b: u8)
        requires { w.old.at + most ≤ 2 ^ 63 }
        ensures written { Writes w.old (text b) w.new }
        ensures few { w.new.at ≤ w.old.at + most };
}

// A byte as it is.
pub struct Plain;

impl Spelling for Plain {
    ghost text = { λ b. b ∷ [] };

    ghost most = { 1 };

    fn put(w: &mut Writer<'_>, b: u8) {
        w.byte(b);
    }
}

// A Latin-1 byte as UTF-8.
pub struct Latin1;

impl Spelling for Latin1 {
    ghost text = { latin1 };

    ghost most = { 2 };

    #[tactic(auto, using(crate::proofs::Writing::composed), unfolding(crate::specs::Out::latin1))]
    fn put(w: &mut Writer<'_>, b: u8) {
        if b < 128 {
            w.byte(b);
        } else {
            w.byte(192 + b / 64);
            w.byte(128 + b % 64);
        }
    }
}

// The byte b at `at`, where the bytes lent reach so far, and the place behind it.
fn put(out: &mut [u8], at: usize, b: u8) -> usize
    requires { at < 2 ^ 63 }
    ensures { Wrote out.old at (b ∷ []) out.new result }
{
    if at < out.len() {
        out[at] = b;
    }
    at + 1
}

// n in decimal from `at` on, and the place behind it: by values, since a writer that is lent to a recursion lies in memory from then on.
fn put_decimal(out: &mut [u8], at: usize, n: u64) -> usize
    requires { at + 20 < 2 ^ 63 }
    ensures { Wrote out.old at (decimal n) out.new result }
{
    if n < 10 {
        return put(out, at, b'0' + n as u8);
    }
    let next = put_decimal(out, at, n / 10);
    put(out, next, b'0' + (n % 10) as u8)
}

impl<'a> Writer<'a> {
    // A text that begins at the first byte lent.
    pub fn over(out: &'a mut [u8]) -> Writer<'a>
        ensures same { result.out.ghost_name ≡ out.entry.ghost_name }
        ensures bytes { result.out.now ≡ out.old }
        ensures at { result.at ≡ 0 }
    {
        Writer { out, at: 0 }
    }

    // The byte b, where the bytes lent reach so far; our crates alone call it, and what follows.
    pub fn byte(&mut self, b: u8)
        requires { self.old.at < 2 ^ 63 }
        ensures { Writes self.old (b ∷ []) self.new }
    {
        self.at = put(self.out, self.at, b);
    }

    // The text of each byte of s.
    pub fn each<S: Spelling>(&mut self, s: &[u8])
        requires { self.old.at + S.most * length s.now ≤ 2 ^ 63 }
        ensures { Writes self.old (each_byte S.text s.now) self.new }
    {
        for b in s {
            S::put(self, *b);
        }
    }

    // All of s.
    #[tactic(auto, using(crate::proofs::Loops::each_itself))]
    pub fn bytes(&mut self, s: &[u8])
        requires { self.old.at + length s.now ≤ 2 ^ 63 }
        ensures { Writes self.old s.now self.new }
    {
        self.each::<Plain>(s);
    }

    // All of s, each byte a code point.
    pub fn latin(&mut self, s: &[u8])
        requires { self.old.at + 2 * length s.now ≤ 2 ^ 63 }
        ensures { Writes self.old (latin s.now) self.new }
    {
        self.each::<Latin1>(s);
    }

    // n in decimal; not by std's Display, which promises its bytes on an Ok alone, and no Ok: no text here may fail.
    pub fn decimal(&mut self, n: u64)
        requires { self.old.at + 20 < 2 ^ 63 }
        ensures { Writes self.old (decimal n) self.new }
    {
        self.at = put_decimal(self.out, self.at, n);
    }

    // A word and a number.
    #[tactic(auto, using(crate::proofs::Writing::composed))]
    pub fn said(&mut self, word: &[u8], n: u64)
        requires { self.old.at + length word.now + 20 < 2 ^ 63 }
        ensures { Writes self.old (word.now ++ decimal n) self.new }
    {
        self.bytes(word);
        self.decimal(n);
    }

    // The same, to the end of the line.
    #[tactic(auto, using(crate::proofs::Writing::composed))]
    pub fn said_line(&mut self, word: &[u8], n: u64)
        requires { self.old.at + length word.now + 21 < 2 ^ 63 }
        ensures { Writes self.old (word.now ++ decimal n ++ ascii "\n") self.new }
    {
        self.said(word, n);
        self.byte(b'\n');
    }

    // `refused n`
    #[tactic(auto, unfolding(crate::specs::Out::refused_text))]
    pub fn refused(&mut self, k: u32)
        requires { self.old.at + 32 < 2 ^ 63 }
        ensures { Writes self.old (refused_text k) self.new }
    {
        self.said(b"refused ", u64::from(k));
    }

    // The same, to the end of the line.
    #[tactic(auto, unfolding(crate::specs::Out::refused_line, crate::specs::Out::refused_text))]
    pub fn refused_line(&mut self, k: u32)
        requires { self.old.at + 32 < 2 ^ 63 }
        ensures { Writes self.old (refused_line k) self.new }
    {
        self.said_line(b"refused ", u64::from(k));
    }
}
