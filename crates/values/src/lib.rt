// The values of attributes: whole numbers, repeat counts and durations.
#![tactic(auto)]

mod given;
#[cfg(test)]
mod tests;

ghost use Rattle.std.specs.Prelude.{◌≡◌, ℕ, ◌-◌, ◌*◌, ◌^◌, ◌<◌, ◌≤◌, min, true, length, drop, ℤ, Ok, MatchResult, MatchOption, false};
ghost use Rattle.std.specs.List.{prefix_len};
ghost use Rattle.values.specs.declared.ValueFault.TheVariants.{NoWholeNumber, NoDuration};
ghost use Rattle.values.specs.Faults.{number};
ghost use Rattle.values.specs.Whole.{digit, digits, decimal, Whole, whole_in};
ghost use Rattle.values.specs.Repeat.{Repeat, repeat_of};
ghost use Rattle.values.specs.Fields.{field_len, seconds_len, seconds_millis, IsField, AreSeconds};
ghost use Rattle.values.specs.Duration.{Duration, begun, duration_of};

pub use given::{duration_if, repeat_if, whole_if};

// Why a text is not the value that it should be.
#[derive(Clone, Copy, Debug, PartialEq, Eq)]
pub enum ValueFault {
    NoWholeNumber,
    NoDuration,
}

impl ValueFault {
    // The number that a fault is reported by.
    // A match and no discriminants, so that the proof sees a wrong number.
    pub fn number(self) -> u8
        ensures { result ≡ number self }
    {
        match self {
            ValueFault::NoWholeNumber => 20,
            ValueFault::NoDuration => 21,
        }
    }
}

// How many digits stand first.
fn digits_end(text: &[u8]) -> usize
    ensures within { result ≤ length text.now }
    ensures value { result ≡ prefix_len digit text.now }
{
    text.iter().take_while(|b| b.is_ascii_digit()).count()
}

// The number that the digits write, or `most` where it is larger.
fn capped(text: &[u8], most: u128) -> u128
    requires digits { digits text.now ≡ true }
    requires small { most ≤ 2 ^ 64 }
    ensures { result ≡ min (decimal text.now) most }
{
    text.iter()
        .fold(0, |n, b| (n * 10 + u128::from(*b - b'0')).min(most))
}

// The whole number from `low` to `high` that the text is.
#[tactic(auto, using(crate::proofs::Numbers::not_digits, crate::proofs::Numbers::all_digits))]
pub fn whole(text: &[u8], low: u64, high: u64) -> Result<u64, ValueFault>
    ensures computed { result ≡ whole_in low high text.now }
    ensures sound { MatchResult result (λ n. Whole text.now n × (low ≤ n) × (n ≤ high)) (λ f. f ≡ NoWholeNumber) }
    ensures complete { (n : ℕ) → Whole text.now n → low ≤ n → n ≤ high → result ≡ Ok n }
{
    if text.is_empty() || digits_end(text) < text.len() {
        return Err(ValueFault::NoWholeNumber);
    }
    // One more than `high` stands for all that is more.
    match u64::try_from(capped(text, u128::from(high) + 1)) {
        Ok(n) if (low..=high).contains(&n) => Ok(n),
        _ => Err(ValueFault::NoWholeNumber),
    }
}

// The repeat count that the text is: -1, for up to the end, or a whole number. It is signed as it is written.
pub fn repeat(text: &[u8]) -> Result<i32, ValueFault>
    ensures computed { result ≡ repeat_of text.now }
    ensures sound { MatchResult result (λ z. Repeat text.now z) (λ f. f ≡ NoWholeNumber) }
    ensures complete { (z : ℤ) → Repeat text.now z → result ≡ Ok z }
{
    if text == b"-1".as_slice() {
        return Ok(-1);
    }
    let n = whole(text, 0, 2_147_483_646)?;
    Ok(n as i32)
}

// The longest duration, in milliseconds. The latest time that a head seeks is another limit, of the same size.
const LONGEST: u64 = 100_000_000_000;

// A number that is read, and the text behind it.
#[derive(Clone, Copy)]
struct Taken<'a> {
    value: u64,
    rest: &'a [u8],
}

// The number that stands first with the unit behind it, or more than the longest duration where it is larger.
#[tactic(auto, using(crate::proofs::Numbers::front_digits))]
fn field(text: &[u8], unit: u8) -> Option<Taken<'_>>
    requires { 0 < unit }
    ensures { MatchOption result (field_len unit text.now ≡ 0) (λ taken. IsField unit text.now taken.value taken.rest.now) }
{
    let (digits, behind) = text.split_at(digits_end(text));
    let (next, rest) = behind.split_first()?;
    if digits.is_empty() || *next != unit {
        return None;
    }
    let value = capped(digits, u128::from(LONGEST) + 1) as u64;
    Some(Taken { value, rest })
}

// The milliseconds of the seconds that stand first, with up to three decimals.
fn seconds(text: &[u8]) -> Option<Taken<'_>>
    ensures read { MatchOption result (seconds_len text.now ≡ 0) (λ taken. AreSeconds text.now taken.value taken.rest.now) }
    ensures few { seconds_millis text.now ≤ 99900 }
{
    if let Some(plain) = field(text, b'S') {
        return Some(Taken {
            value: plain.value * 1000,
            rest: plain.rest,
        });
    }
    let point = field(text, b'.')?;
    let decimals = field(point.rest, b'S')?;
    let len = point.rest.len() - decimals.rest.len();
    if len > 4 {
        return None;
    }
    Some(Taken {
        value: point.value * 1000 + scaled(decimals.value, len),
        rest: decimals.rest,
    })
}

// The milliseconds of decimals that take `len` bytes with the S behind them.
fn scaled(n: u64, len: usize) -> u64
    requires { (n ≤ 100000000001) × ((1 < len) × (len ≤ 4)) }
    ensures value { result ≡ n * 10 ^ (4 - len) }
    ensures bound { result ≤ n * 100 }
{
    n * 10u64.pow(4 - len as u32)
}

// What stands behind PT, where the text begins with it and goes on.
fn behind_pt(text: &[u8]) -> Option<&[u8]>
    ensures { MatchOption result (begun text.now ≡ false) (λ rest. (begun text.now ≡ true) × (rest.now ≡ drop 2 text.now)) }
{
    text.strip_prefix(b"PT").filter(|rest| !rest.is_empty())
}

// The milliseconds of the duration that the text is.
pub fn duration(text: &[u8]) -> Result<u64, ValueFault>
    ensures computed { result ≡ duration_of text.now }
    ensures sound { MatchResult result (λ ms. Duration text.now ms) (λ f. f ≡ NoDuration) }
    ensures complete { (ms : ℕ) → Duration text.now ms → result ≡ Ok ms }
{
    let rest = behind_pt(text).ok_or(ValueFault::NoDuration)?;
    let hours = field(rest, b'H').unwrap_or(Taken { value: 0, rest });
    let minutes = field(hours.rest, b'M').unwrap_or(Taken { value: 0, ..hours });
    let seconds = seconds(minutes.rest).unwrap_or(Taken {
        value: 0,
        ..minutes
    });
    let total = hours.value * 3_600_000 + minutes.value * 60_000 + seconds.value;
    if !seconds.rest.is_empty() || total > LONGEST {
        return Err(ValueFault::NoDuration);
    }
    Ok(total)
}
