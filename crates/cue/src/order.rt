// What a line of the list of calls says.
ghost use Rattle.std.specs.Prelude.{◌≡◌, Option, Result, MatchOption};
ghost use Rattle.cue.specs.Orders.{blank, Says, Silent, Means};

use head::Call;
use values::whole;

// A line that is no call.
#[derive(Clone, Copy, Debug, PartialEq, Eq)]
pub(crate) struct NotACall;

// Whether the line has nothing but spaces and tabs.
fn is_blank(line: &[u8]) -> bool
    ensures { result ≡ blank line.now }
{
    line.iter().all(|byte| *byte == b' ' || *byte == b'\t')
}

// The call that the line is.
fn call_of(line: &[u8]) -> Option<Call>
    ensures { MatchOption result (Silent line.now) (λ call. Says call line.now) }
{
    if line == b"on".as_slice() {
        return Some(Call::On);
    }
    if line == b"back".as_slice() {
        return Some(Call::Back);
    }
    if line == b"address".as_slice() {
        return Some(Call::Address);
    }
    let time = line.strip_prefix(b"seek ")?;
    let ms = whole(time, 0, u64::MAX).ok()?;
    Some(Call::Seek(ms))
}

// The call that the line is, none where it is blank: the one thing that it means.
pub(crate) fn order_of(line: &[u8]) -> Result<Option<Call>, NotACall>
    ensures means { Means result line.now }
    ensures only { (o : Result (Option Call) NotACall) → Means o line.now → result ≡ o }
{
    if is_blank(line) {
        return Ok(None);
    }
    let call = call_of(line).ok_or(NotACall)?;
    Ok(Some(call))
}
