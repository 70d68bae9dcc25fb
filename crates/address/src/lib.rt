// Segment addresses: a template's expansion, and base URLs joined with it.
#![tactic(auto)]

ghost use Rattle.std.specs.Prelude.{◌≡◌};
ghost use Rattle.output.specs.Text.{Puts};
ghost use Rattle.template.specs.Reading.{broken};
ghost use Rattle.address.specs.Expansion.{given, meaning, value_text, expanded, front_of, Expands};
ghost use Rattle.address.specs.Joining.{absolute, JoinedFrom, joined, parts_with, together, present, given_of, parts_of, address_of, Begun};
ghost use Rattle.address.specs.Putting.{PutsUnless};
ghost use Rattle.address.specs.declared.ExpandFault.{ExpandFault};

use output::{Guard, Mark, NoRoom, put, put_number};
use template::{Identifier, Piece, Pieces, is_broken};

#[cfg(test)]
mod tests;

// What the addresses of a Representation's segments are made from. A level without a base URL gives no part.
#[derive(Clone, Copy, Debug, PartialEq, Eq)]
pub struct Parts<'a> {
    pub mpd: Option<&'a [u8]>,
    pub period: Option<&'a [u8]>,
    pub set: Option<&'a [u8]>,
    pub representation: Option<&'a [u8]>,
    pub template: &'a [u8],
    pub id: &'a [u8],
    pub bandwidth: u64,
}

// Why a text is refused: its template is broken, which has no number of its own, or there is no room for it.
#[derive(Clone, Copy, Debug, PartialEq, Eq)]
pub enum ExpandFault {
    // A test finds it before anything is put, so there is no refusal of a call that `?` could carry on.
    Broken,
    NoRoom(NoRoom),
}

// Written out, so that the clauses can name the refusal that `?` makes.
impl From<NoRoom> for ExpandFault {
    ghost from_gives = { λ e r. r ≡ ExpandFault.NoRoom e };

    fn from(refusal: NoRoom) -> ExpandFault {
        ExpandFault::NoRoom(refusal)
    }
}

// What the identifiers of a template stand for.
#[derive(Clone, Copy, Debug, PartialEq, Eq)]
pub struct Values<'a> {
    pub id: &'a [u8],
    pub bandwidth: u64,
    pub number: u64,
    pub time: u64,
}

impl<'a> Parts<'a> {
    // What the identifiers stand for in a segment's address.
    pub fn values(&self, number: u64, time: u64) -> Values<'a>
        ensures { given result ≡ given_of self.now number time }
    {
        Values {
            id: self.id,
            bandwidth: self.bandwidth,
            number,
            time,
        }
    }
}

// Puts the template's expansion. A broken template has none: then nothing changes.
pub fn put_expanded(
    bytes: &mut [u8],
    mark: &mut Mark,
    template: &[u8],
    values: Values,
) -> Result<(), ExpandFault>
    ensures put { PutsUnless (broken template.now) bytes.old mark.old.used (expanded template.now (given values.entry)) bytes.new mark.new.used result }
    ensures only { Expands template.now (given values.entry) }
{
    if is_broken(template) {
        return Err(ExpandFault::Broken);
    }
    put_pieces(bytes, mark, template, values)?;
    Ok(())
}

// Puts the address: the parts from the last one on that starts with `http://` or `https://`, all of them if none does.
// With a broken template there is no address: then nothing changes. The number and the time alone are the
// segment's: `Values` would name the parts' id and bandwidth a second time.
pub fn put_address(
    bytes: &mut [u8],
    mark: &mut Mark,
    parts: &Parts,
    number: u64,
    time: u64,
) -> Result<(), ExpandFault>
    ensures put { PutsUnless (broken parts.now.template.now) bytes.old mark.old.used (address_of parts.now number time) bytes.new mark.new.used result }
    ensures begun { Begun (parts_of parts.now number time) (address_of parts.now number time) }
    ensures only { Expands parts.now.template.now (given_of parts.now number time) }
{
    if is_broken(parts.template) {
        return Err(ExpandFault::Broken);
    }
    put_parts(bytes, mark, *parts, parts.values(number, time))?;
    Ok(())
}

// Puts the parts that are joined.
fn put_parts(bytes: &mut [u8], mark: &mut Mark, parts: Parts, values: Values) -> Result<(), NoRoom>
    ensures { Puts bytes.old mark.old.used (joined (parts_with parts.entry (given values.entry))) bytes.new mark.new.used result }
{
    let bases = [parts.mpd, parts.period, parts.set, parts.representation];
    let start = first_joined(&bases, expands_absolute(parts.template, values));
    let guard = Guard::hold(mark);
    put_bases(bytes, guard.mark, &bases[start..])?;
    put_pieces(bytes, guard.mark, parts.template, values)?;
    guard.accept();
    Ok(())
}

// The place from which base URLs are joined: behind them where the address starts anew later, else that of the last
// absolute one, or the first where none is.
fn first_joined(bases: &[Option<&[u8]>], later: bool) -> usize
    ensures { JoinedFrom bases.now later result }
{
    if later {
        return bases.len();
    }
    bases
        .iter()
        .rposition(|base| base.is_some_and(is_absolute))
        .unwrap_or(0)
}

// Puts the base URLs that are present.
fn put_bases(bytes: &mut [u8], mark: &mut Mark, bases: &[Option<&[u8]>]) -> Result<(), NoRoom>
    ensures { Puts bytes.old mark.old.used (together (present bases.now)) bytes.new mark.new.used result }
{
    let guard = Guard::hold(mark);
    for base in bases {
        if let Some(text) = base {
            put(bytes, guard.mark, text)?;
        }
    }
    guard.accept();
    Ok(())
}

// Whether the text starts with `http://` or `https://`.
pub fn is_absolute(text: &[u8]) -> bool
    ensures { result ≡ absolute text.now }
{
    text.starts_with(b"http://") || text.starts_with(b"https://")
}

// Whether the expansion starts with `http://` or `https://`, which its first bytes say.
fn expands_absolute(template: &[u8], values: Values) -> bool
    ensures { result ≡ absolute (expanded template.now (given values.entry)) }
{
    is_absolute(&front(template, values))
}

// The first bytes of the expansion, zeros behind a shorter one.
pub fn front(template: &[u8], values: Values) -> [u8; 8]
    ensures text { result ≡ front_of (expanded template.now (given values.entry)) }
    ensures only { Expands template.now (given values.entry) }
{
    let mut bytes = [0u8; 8];
    let mut mark = Mark { used: 0 };
    let _ = put_pieces(&mut bytes, &mut mark, template, values);
    bytes
}

// Puts the meanings of the template's pieces.
fn put_pieces(
    bytes: &mut [u8],
    mark: &mut Mark,
    template: &[u8],
    values: Values,
) -> Result<(), NoRoom>
    ensures { Puts bytes.old mark.old.used (expanded template.now (given values.entry)) bytes.new mark.new.used result }
{
    let guard = Guard::hold(mark);
    'pieces: for piece in Pieces::of(template) {
        put_piece(bytes, guard.mark, piece, values)?;
    }
    guard.accept();
    Ok(())
}

// Puts what the piece means.
fn put_piece(bytes: &mut [u8], mark: &mut Mark, piece: Piece, values: Values) -> Result<(), NoRoom>
    ensures { Puts bytes.old mark.old.used (meaning (given values.entry) piece) bytes.new mark.new.used result }
{
    match piece {
        Piece::Byte(byte) => put(bytes, mark, &[byte]),
        Piece::Dollar => put(bytes, mark, b"$"),
        Piece::Value(identifier, width) => {
            put_value(bytes, mark, identifier, width.unwrap_or(1), values)
        }
    }
}

// Puts the value of the identifier, a number in at least `width` digits.
fn put_value(
    bytes: &mut [u8],
    mark: &mut Mark,
    identifier: Identifier,
    width: u8,
    values: Values,
) -> Result<(), NoRoom>
    ensures { Puts bytes.old mark.old.used (value_text (given values.entry) identifier width) bytes.new mark.new.used result }
{
    match identifier {
        Identifier::RepresentationId => put(bytes, mark, values.id),
        Identifier::Number => put_number(bytes, mark, values.number, width),
        Identifier::Bandwidth => put_number(bytes, mark, values.bandwidth, width),
        Identifier::Time => put_number(bytes, mark, values.time, width),
    }
}
