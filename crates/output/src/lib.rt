// An output is the caller's bytes with a mark, the count of bytes used. A mark past the end has no bytes behind it.
#![tactic(auto)]

ghost use Rattle.std.specs.Prelude.{◌≡◌, ℕ, ◌+◌, ◌<◌, ◌≤◌, List, length, take, MatchResult};
ghost use Rattle.output.specs.Digits.{last_digits, digit_count, padded, Decimal};
ghost use Rattle.output.specs.Text.{number, room, after, Puts, Written};

mod labelled;
#[cfg(test)]
mod tests;

pub use labelled::put_labelled;

// How many of the bytes are used. It may be past their end.
#[derive(Clone, Copy, Debug, PartialEq, Eq)]
pub struct Mark {
    pub used: usize,
}

// The refusal of a text that is longer than the bytes behind the mark.
#[derive(Clone, Copy, Debug, PartialEq, Eq)]
pub struct NoRoom;

impl NoRoom {
    pub fn number(self) -> u8
        ensures { result ≡ number self }
    {
        45
    }
}

// Holds the mark while a text is put in one or more parts, and puts it back unless the text is accepted. It borrows
// the mark alone, so that the bytes stay free for what is put under it: bytes and mark are passed side by side.
pub struct Guard<'m> {
    pub mark: &'m mut Mark,
    saved: usize,
}

impl Drop for Guard<'_> {
    fn drop(self)
        ensures { self.exit.0.now.used ≡ self.entry.saved }
    {
        let Guard { mark, saved } = self;
        mark.used = saved;
    }
}

impl<'m> Guard<'m> {
    pub fn hold(mark: &'m mut Mark) -> Guard<'m>
        ensures lent { result.mark.ghost_name ≡ mark.entry.ghost_name }
        ensures same { result.mark.now ≡ mark.old }
        ensures saved { result.saved ≡ mark.old.used }
    {
        let saved = mark.used;
        Guard { mark, saved }
    }

    // Ends the guard without its drop, so that the mark stays where it is.
    pub fn accept(self)
        ensures { self.exit.0.now ≡ self.entry.mark.now }
    {
        let Guard { mark: _, saved: _ } = self;
    }
}

// Puts the text behind the mark as far as there is room, and moves the mark past a text that fits.
fn copy(bytes: &mut [u8], mark: &mut Mark, text: &[u8]) -> Result<(), NoRoom>
    ensures left { bytes.new ≡ after bytes.old mark.old.used text.now }
    ensures cases { MatchResult result
        (λ _. (length text.now ≤ room bytes.old mark.old.used) × (mark.new.used ≡ mark.old.used + length text.now))
        (λ _. room bytes.old mark.old.used < length text.now) }
{
    let start = mark.used.min(bytes.len());
    let free = bytes.len() - start;
    // A copy for each case: of a text of one byte that fits it is then one store.
    if free < text.len() {
        bytes[start..].copy_from_slice(&text[..free]);
        return Err(NoRoom);
    }
    bytes[start..start + text.len()].copy_from_slice(text);
    mark.used += text.len();
    Ok(())
}

// Puts the text behind the mark and moves the mark past it. Refused, the mark stays, and the bytes behind it hold
// the leading bytes of the text.
pub fn put(bytes: &mut [u8], mark: &mut Mark, text: &[u8]) -> Result<(), NoRoom>
    ensures { Puts bytes.old mark.old.used text.now bytes.new mark.new.used result }
{
    let guard = Guard::hold(mark);
    copy(bytes, guard.mark, text)?;
    guard.accept();
    Ok(())
}

// Fills `to` with the last digits of n.
fn fill_digits(to: &mut [u8], n: u64)
    ensures { to.new ≡ last_digits (length to.old) n }
{
    if let Some((last, front)) = to.split_last_mut() {
        *last = b'0' + (n % 10) as u8;
        fill_digits(front, n / 10);
    }
}

// How many digits n has.
fn count_digits(n: u64) -> usize
    ensures count { result ≡ digit_count n }
    ensures few { result ≤ 20 }
{
    n.max(1).ilog10() as usize + 1
}

// Puts n in decimal, padded with zeros on the left to the width and never shortened. A width below 1 counts as 1,
// one above 20 as 20.
pub fn put_number(bytes: &mut [u8], mark: &mut Mark, n: u64, width: u8) -> Result<(), NoRoom>
    ensures put { Puts bytes.old mark.old.used (padded width n) bytes.new mark.new.used result }
    ensures decimal { Decimal width n (padded width n) }
    ensures only { (text : List ℕ) → Decimal width n text → text ≡ padded width n }
{
    let mut digits = [0u8; 20];
    let long = count_digits(n).max(usize::from(width.clamp(1, 20)));
    let digits = &mut digits[..long];
    fill_digits(digits, n);
    put(bytes, mark, digits)
}

// The caller's bytes and their mark, for writing one text after another.
#[derive(Drop)]
pub struct Output<'a> {
    pub bytes: &'a mut [u8],
    pub mark: Mark,
}

impl<'a> Output<'a> {
    pub fn new(bytes: &'a mut [u8]) -> Output<'a>
        ensures lent { result.bytes.ghost_name ≡ bytes.entry.ghost_name }
        ensures same { result.bytes.now ≡ bytes.old }
        ensures start { result.mark.used ≡ 0 }
    {
        Output {
            bytes,
            mark: Mark { used: 0 },
        }
    }

    pub fn write(&mut self, text: &[u8]) -> Result<(), NoRoom>
        ensures { Written self.old text.now self.new result }
    {
        put(self.bytes, &mut self.mark, text)
    }

    pub fn write_number(&mut self, n: u64, width: u8) -> Result<(), NoRoom>
        ensures { Written self.old (padded width n) self.new result }
    {
        put_number(self.bytes, &mut self.mark, n, width)
    }

    // The bytes before the mark, all of them where the mark is past the end.
    pub fn written(&self) -> &[u8]
        ensures { result.now ≡ take self.now.mark.used self.now.bytes.now }
    {
        let end = self.mark.used.min(self.bytes.len());
        &self.bytes[..end]
    }
}
