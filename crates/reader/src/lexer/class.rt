// The classes of bytes of a manifest.
ghost use Rattle.std.specs.Prelude.{◌≡◌, ◌<◌, ◌≤◌, false, length, slice_index};
ghost use Rattle.std.specs.List.{prefix_len};
ghost use Rattle.reader.specs.Bytes.{blank, begins, goes, quotes, visible, ascii, textual};
ghost use Rattle.reader.specs.Classes.{holds};
ghost use Rattle.reader.specs.Machine.{passes};

// A class of bytes. No closure stands for one, since the contracts say by its name what it holds.
#[derive(Clone, Copy)]
pub(super) enum Class {
    Blank,
    // What a name begins with, and what it goes on with.
    First,
    Name,
    Quote,
    // What may stand in a comment, in the declaration and in a text.
    Visible,
    Ascii,
    Text,
    // What passes between tags and comments, inside the root or not.
    Loose { inside: bool },
    // What may stand in a value between its quotes.
    Value { quote: u8 },
    // This byte alone.
    Only { byte: u8 },
}

impl Class {
    pub(super) fn has(self, b: u8) -> bool
        ensures { result ≡ holds self b }
    {
        match self {
            Class::Blank => is_blank(b),
            Class::First => is_first(b),
            Class::Name => is_name(b),
            Class::Quote => is_quote(b),
            Class::Visible => is_visible(b),
            Class::Ascii => is_ascii(b),
            Class::Text => is_text(b),
            Class::Loose { inside } => is_loose(inside, b),
            Class::Value { quote } => b != quote && is_text(b),
            Class::Only { byte } => b == byte,
        }
    }

    // How many bytes of the class stand at the front.
    pub(super) fn run(self, s: &[u8]) -> usize
        ensures within { result ≤ length s.now }
        ensures stops { result < length s.now → holds self (slice_index s.now result) ≡ false }
        ensures value { result ≡ prefix_len (holds self) s.now }
    {
        s.iter().take_while(|b| self.has(**b)).count()
    }
}

// Each class of bytes is a `match` over literals and ranges, by rule of the project, where `matches!` would do too.
fn is_blank(b: u8) -> bool
    ensures { result ≡ blank b }
{
    match b {
        b' ' | b'\t' | b'\r' | b'\n' => true,
        _ => false,
    }
}

fn is_first(b: u8) -> bool
    ensures { result ≡ begins b }
{
    match b {
        b'a'..=b'z' | b'A'..=b'Z' | b':' | b'_' => true,
        _ => false,
    }
}

fn is_name(b: u8) -> bool
    ensures { result ≡ goes b }
{
    match b {
        b'0'..=b'9' | b'-' | b'.' => true,
        _ => is_first(b),
    }
}

fn is_quote(b: u8) -> bool
    ensures { result ≡ quotes b }
{
    match b {
        b'"' | b'\'' => true,
        _ => false,
    }
}

fn is_visible(b: u8) -> bool
    ensures { result ≡ visible b }
{
    match b {
        b' '..=255 => true,
        _ => is_blank(b),
    }
}

fn is_ascii(b: u8) -> bool
    ensures { result ≡ ascii b }
{
    match b {
        128..=255 => false,
        _ => is_visible(b),
    }
}

fn is_text(b: u8) -> bool
    ensures { result ≡ textual b }
{
    match b {
        b'<' | b'&' => false,
        _ => is_visible(b),
    }
}

fn is_loose(inside: bool, b: u8) -> bool
    ensures { result ≡ passes inside b }
{
    if inside { is_text(b) } else { is_blank(b) }
}
