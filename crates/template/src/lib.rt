// Address templates: the pieces that a template is made of, read left to right.
#![tactic(auto)]

ghost use Rattle.std.specs.Prelude.{◌≡◌, ◌<◌, true, false, drop, Decides, slice_index};
ghost use Rattle.std.specs.Iterator.{YieldsFirst};
ghost use Rattle.template.specs.Pieces.{name_of, width_text, text_of};
ghost use Rattle.template.specs.Reading.{begins, width_of, closing_of, value_of, next, next_at, pieces, takes, is_value_of, broken, stands, measured, closing_text};
ghost use Rattle.template.specs.Left.{pieces_left, left_broken};
ghost use Rattle.template.specs.Laws.{Told, Only, Whole, Before};

// What a template can ask the value of.
#[derive(Clone, Copy, Debug, PartialEq, Eq)]
pub enum Identifier {
    RepresentationId,
    Number,
    Bandwidth,
    Time,
}

// A piece of a template.
#[derive(Clone, Copy, Debug, PartialEq, Eq)]
pub enum Piece {
    // A byte that stands for itself.
    Byte(u8),
    // `$$`, which gives one `$`.
    Dollar,
    // The value of the identifier; with a tag, in at least so many digits.
    Value(Identifier, Option<u8>),
}

// The refusal of a template that goes on with no piece.
#[derive(Clone, Copy, Debug, PartialEq, Eq)]
pub struct Broken;

// The piece at the place `at`, and where it ends. From the template's end on there is none.
pub fn piece_at(template: &[u8], at: usize) -> Result<Option<(Piece, usize)>, Broken>
    ensures value { result ≡ next_at at (drop at template.now) }
    ensures told { Told template.now at result }
    ensures only { Only template.now at result }
{
    if at >= template.len() {
        return Ok(None);
    }
    let (piece, long) = first_piece(&template[at..]).ok_or(Broken)?;
    Ok(Some((piece, at + long)))
}

// The pieces of a template from left to right, up to its end or the first break.
#[derive(Clone, Copy, Debug)]
pub struct Pieces<'a> {
    rest: &'a [u8],
}

impl<'a> Pieces<'a> {
    pub fn of(template: &'a [u8]) -> Pieces<'a>
        ensures pieces { pieces_left result ≡ pieces template.now }
        ensures broken { left_broken result ≡ broken template.now }
    {
        Pieces { rest: template }
    }

    // The first of the pieces that are left. A break that follows them still follows.
    fn advance(&mut self) -> Option<Piece>
        ensures steps { YieldsFirst pieces_left self.old result self.new }
        ensures broken { left_broken self.new ≡ left_broken self.old }
    {
        let (piece, long) = piece_at(self.rest, 0).ok()??;
        self.rest = &self.rest[long..];
        Some(piece)
    }
}

impl<'a> Iterator for Pieces<'a> {
    ghost use Rattle.std.specs.Iterator.{YieldsFirst, item_count};
    ghost use Rattle.template.specs.Left.{pieces_left};

    type Item = Piece;

    ghost next_gives = { YieldsFirst pieces_left };

    ghost remaining = { item_count pieces_left };

    fn next(&mut self) -> Option<Piece> {
        self.advance()
    }
}

// Whether the template breaks anywhere: then its pieces stop short of its end.
pub fn is_broken(template: &[u8]) -> bool
    ensures value { result ≡ broken template.now }
    ensures whole { result ≡ false → Whole template.now }
    ensures torn { result ≡ true → Whole template.now → ⊥ }
{
    let mut pieces = Pieces::of(template);
    while pieces.advance().is_some() {}
    !pieces.rest.is_empty()
}

// Whether the identifier stands before any break.
pub fn holds(template: &[u8], sought: Identifier) -> bool
    ensures value { result ≡ stands sought template.now }
    ensures before { Decides result (Before sought template.now) }
{
    Pieces::of(template).any(|piece| is_value_of(piece, sought))
}

fn is_value_of(piece: Piece, sought: Identifier) -> bool
    ensures { result ≡ is_value_of sought piece }
{
    matches!(piece, Piece::Value(identifier, _) if identifier == sought)
}

// The piece that the text begins with, and how many bytes it takes.
fn first_piece(text: &[u8]) -> Option<(Piece, usize)>
    ensures { result ≡ measured text_of (next text.now) }
{
    if text.is_empty() {
        return None;
    }
    if text[0] != b'$' {
        return Some((Piece::Byte(text[0]), 1));
    }
    if begins_at(text, 1, b"$") {
        return Some((Piece::Dollar, 2));
    }
    first_value(text, Identifier::RepresentationId)
        .or_else(|| first_value(text, Identifier::Number))
        .or_else(|| first_value(text, Identifier::Bandwidth))
        .or_else(|| first_value(text, Identifier::Time))
}

// The value of the identifier, if the text goes on with it behind its first byte, a `$`, and how many bytes it takes with that.
fn first_value(text: &[u8], identifier: Identifier) -> Option<(Piece, usize)>
    ensures { result ≡ measured text_of (value_of identifier (drop 1 text.now)) }
{
    let name = name_of(identifier);
    if !begins_at(text, 1, name) {
        return None;
    }
    let end = 1 + name.len();
    let (tag, long) = closing(text, end)?;
    if !takes_tag(identifier, tag) {
        return None;
    }
    Some((Piece::Value(identifier, tag), end + long))
}

// Whether the identifier takes the tag: RepresentationID takes none.
fn takes_tag(identifier: Identifier, tag: Option<u8>) -> bool
    ensures { result ≡ takes identifier tag }
{
    tag.is_none() || identifier != Identifier::RepresentationId
}

fn name_of(identifier: Identifier) -> &'static [u8]
    ensures { result.now ≡ name_of identifier }
{
    match identifier {
        Identifier::RepresentationId => b"RepresentationID",
        Identifier::Number => b"Number",
        Identifier::Bandwidth => b"Bandwidth",
        Identifier::Time => b"Time",
    }
}

// The tag, if any, that with its `$` stands at the place `at`, right behind a name, and how many bytes both take.
fn closing(text: &[u8], at: usize) -> Option<(Option<u8>, usize)>
    requires { at < 100 }
    ensures { result ≡ measured closing_text (closing_of (drop at text.now)) }
{
    if begins_at(text, at, b"$") {
        return Some((None, 1));
    }
    if !begins_at(text, at, b"%0") {
        return None;
    }
    let (width, digits) = width_of(byte_at(text, at + 2), byte_at(text, at + 3))?;
    if !begins_at(text, at + 2 + digits, b"d$") {
        return None;
    }
    Some((Some(width), 4 + digits))
}

// The width from 1 to 20 that two bytes begin with, and how many of them write it.
fn width_of(first: u8, second: u8) -> Option<(u8, usize)>
    ensures { result ≡ measured width_text (width_of first second) }
{
    match (first, second) {
        (b'1', b'0'..=b'9') => Some((10 + (second - b'0'), 2)),
        (b'2', b'0') => Some((20, 2)),
        (b'1'..=b'9', _) => Some((first - b'0', 1)),
        _ => None,
    }
}

// The byte at the place `at`, 0 past the end.
fn byte_at(text: &[u8], at: usize) -> u8
    ensures { result ≡ slice_index text.now at }
{
    text.get(at).copied().unwrap_or(0)
}

// Whether the word stands at the place `at`.
fn begins_at(text: &[u8], at: usize, word: &[u8]) -> bool
    ensures { result ≡ begins word.now (drop at text.now) }
{
    let from = at.min(text.len());
    text[from..].starts_with(word)
}

#[cfg(test)]
mod tests {
    use super::*;

    // A template, whether it breaks, and whether Number stands before the break.
    #[derive(Clone, Copy)]
    struct Case<'a>(&'a [u8], bool, bool);

    #[test]
    fn templates(rt: HostRuntime) {
        let cases = [
            Case(b"", false, false),
            Case(b"$RepresentationID$/$Number%05d$.m4s", false, true),
            Case(b"$Number%01d$", false, true),
            Case(b"$Number%020d$", false, true),
            Case(b"$Number%021d$", true, false),
            Case(b"$Number%00d$", true, false),
            Case(b"$Number%05$", true, false),
            Case(b"$Number%5d$", true, false),
            Case(b"$$Number$$", false, false),
            Case(b"$Number$$", true, true),
            Case(b"$RepresentationID%01d$", true, false),
            Case(b"$number$", true, false),
            Case(b"$", true, false),
            Case(b"a$b", true, false),
        ];
        for case in &cases {
            assert!(rt; is_broken(case.0) == case.1);
            assert!(rt; holds(case.0, Identifier::Number) == case.2);
        }
    }

    #[test]
    fn pieces(rt: HostRuntime) {
        assert_eq!(rt; piece_at(b"a$$", 0), Ok(Some((Piece::Byte(b'a'), 1))));
        assert_eq!(rt; piece_at(b"a$$", 1), Ok(Some((Piece::Dollar, 3))));
        assert_eq!(rt; piece_at(b"a$$", 2), Err(Broken));
        assert_eq!(rt; piece_at(b"a$$", 9), Ok(None));
        assert_eq!(rt;
            piece_at(b"-$Time%012d$", 1),
            Ok(Some((Piece::Value(Identifier::Time, Some(12)), 12)))
        );
    }
}
