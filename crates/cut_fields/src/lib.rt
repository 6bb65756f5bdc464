// Little-endian fields of a tape, read one after the other up to the first that came up short.
#![tactic(auto)]

ghost use Rattle.std.specs.Prelude.{◌≡◌, ◌+◌, ◌≤◌, ◌<◌, IfOk, IfErr, IsOk, length};
ghost use Rattle.cut_fields.specs.Field.{le_at, number_at, field_at, read_of};
ghost use Rattle.cut_fields.specs.Run.{Wholes, each_at, groups_at};

// The place and the width of the first field in reading order that came up short.
#[derive(Clone, Copy, PartialEq, Eq)]
pub struct Short {
    pub place: u64,
    pub width: u64,
}

// A tape, and the place in it from which the next field is read, or the first field that came up short: that one stays.
#[derive(Clone, Copy)]
pub struct Reader<'a> {
    pub tape: &'a [u8],
    pub at: Result<u64, Short>,
}

// The number of `width` bytes at `at`, the lowest first; its callers know the bytes to be there.
#[inline(always)]
pub fn low_first(tape: &[u8], at: u64, width: u64) -> u32
    requires { (at + width ≤ length tape.now) × (width ≤ 4) }
    ensures { result ≡ le_at tape.now at width }
{
    let mut value: u32 = 0;
    for i in (0..width).rev() {
        let byte = tape[(at + i) as usize] as u32;
        value = value * 256 + byte;
    }
    value
}

// The number of a field that is there: up to four bytes spell one, a wider field none.
#[inline(always)]
#[tactic(auto, unfolding(crate::specs::Field::number_at))]
fn number(tape: &[u8], at: u64, width: u64) -> u32
    requires { at + width ≤ length tape.now }
    ensures { result ≡ number_at tape.now at width }
{
    if width <= 4 {
        low_first(tape, at, width)
    } else {
        0
    }
}

// The place past one field, where it is there.
#[inline(always)]
fn past(tape: &[u8], at: u64, width: u64) -> Result<u64, Short>
    ensures there { IfOk result (λ next. (next ≡ at + width) × (next ≤ length tape.now)) }
    ensures short { IfErr result (λ e. (e.place ≡ at) × (e.width ≡ width) × (length tape.now < at + width)) }
{
    let end = tape.len() as u64;
    if at <= end && width <= end - at {
        Ok(at + width)
    } else {
        Err(Short { place: at, width })
    }
}

// How many of n things of `size` bytes are whole from `at` on.
fn wholes(tape: &[u8], at: u64, n: u64, size: u64) -> u64
    ensures { Wholes (length tape.now) at n size result }
{
    let end = tape.len() as u64;
    if end < at {
        0
    } else if size == 0 {
        n
    } else {
        n.min((end - at) / size)
    }
}

impl<'a> Reader<'a> {
    // One field's number; taken into its callers, whose widths are constants.
    #[inline(always)]
    #[tactic(auto, using(crate::proofs::Runs::field_there, crate::proofs::Runs::field_short, crate::proofs::Runs::field_stuck))]
    pub fn number(&mut self, width: u64) -> Result<u32, Short>
        ensures tape { self.new.tape ≡ self.old.tape }
        ensures read { field_at self.old.tape.now self.old.at width ≡ read_of result self.new.at }
        ensures whole { IfOk result (λ value. IsOk self.new.at) }
        ensures short { IfErr result (λ e. self.new.at ≡ Err e) }
    {
        let at = self.at?;
        self.skip(width)?;
        Ok(number(self.tape, at, width))
    }

    // One field whose number nobody asks: a body, a text or data, of its length. The place past it.
    #[inline(always)]
    #[tactic(auto, using(crate::proofs::Runs::field_moves, crate::proofs::Runs::field_stops, crate::proofs::Runs::field_stuck))]
    pub fn skip(&mut self, width: u64) -> Result<u64, Short>
        ensures tape { self.new.tape ≡ self.old.tape }
        ensures past { result ≡ (field_at self.old.tape.now self.old.at width).cursor }
        ensures at { self.new.at ≡ result }
    {
        let at = self.at?;
        self.at = past(self.tape, at, width);
        self.at
    }

    // n fields of one width, one after the other, at no cost a field. The place past them.
    #[tactic(auto, using(crate::proofs::Runs::each_all, crate::proofs::Runs::each_short, crate::proofs::Runs::each_stuck))]
    pub fn each(&mut self, n: u64, width: u64) -> Result<u64, Short>
        ensures tape { self.new.tape ≡ self.old.tape }
        ensures past { result ≡ each_at self.old.tape.now self.old.at n width }
        ensures at { self.new.at ≡ result }
    {
        let at = self.at?;
        let whole = wholes(self.tape, at, n, width);
        let place = at + whole * width;
        self.at = if whole == n {
            Ok(place)
        } else {
            Err(Short { place, width })
        };
        self.at
    }

    // n groups, each a field of `head` bytes and k fields of `width` bytes, at no cost a group. The place past them.
    #[tactic(auto, using(crate::proofs::Runs::groups_all, crate::proofs::Runs::groups_short, crate::proofs::Runs::groups_stuck, crate::proofs::Runs::groups_behind))]
    pub fn groups(&mut self, n: u64, head: u32, k: u32, width: u32) -> Result<u64, Short>
        ensures tape { self.new.tape ≡ self.old.tape }
        ensures past { result ≡ groups_at self.old.tape.now self.old.at n head k width }
        ensures at { self.new.at ≡ result }
    {
        let at = self.at?;
        let size = head as u64 + k as u64 * width as u64;
        let whole = wholes(self.tape, at, n, size);
        self.at = Ok(at + whole * size);
        if whole < n {
            self.skip(head as u64)?;
            self.each(k as u64, width as u64)?;
        }
        self.at
    }
}
