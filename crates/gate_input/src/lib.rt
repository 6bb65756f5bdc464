// What the gate's programs read from standard input: numbers, bytes behind their count, words. Numbers are little-endian.
#![tactic(auto)]

ghost use Rattle.std.specs.Prelude.{◌≡◌, ◌≤◌, min, length};
ghost use Rattle.cut_fields.specs.Field.{field_at};

use cut_fields::Reader;

// The largest number of 4 bytes.
pub const LARGEST: usize = u32::MAX as usize;

// The number of the first bytes of s, at most `most`; 0 where they are not all there.
fn number_up_to(s: &[u8], width: u64, most: usize) -> usize
    ensures { result ≡ min (field_at s.now (Ok 0) width).value most }
{
    let mut r = Reader { tape: s, at: Ok(0) };
    let n = r.number(width).unwrap_or(0) as usize;
    n.min(most)
}

// The next n bytes, into the front of `bytes`; the gate's programs alone call it.
pub fn read_bytes(bytes: &mut [u8], n: usize)
    requires { n ≤ length bytes.old }
{
    io::read_full(0, &mut bytes[..n]);
}

// The next number of `width` bytes, at most `most`; the gate's programs alone call it.
pub fn read_number(width: usize, most: usize) -> usize
    requires { width ≤ 4 }
    ensures { result ≤ most }
{
    let mut bytes = [0u8; 4];
    read_bytes(&mut bytes, width);
    number_up_to(&bytes, width as u64, most)
}

// How many records there are.
pub fn read_count() -> usize {
    read_number(4, 1000000)
}

// Bytes behind their count of 4 bytes, into the front of `bytes`: as many as it holds, if there are more.
pub fn read_counted(bytes: &mut [u8]) -> usize
    ensures { result ≤ length bytes.new }
{
    let n = read_number(4, bytes.len());
    read_bytes(bytes, n);
    n
}

// Words of 4 bytes each, as many as there are places for.
pub fn read_words(words: &mut [u64]) {
    for word in words.iter_mut() {
        *word = read_number(4, LARGEST) as u64;
    }
}
