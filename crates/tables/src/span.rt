// Parts of the manifest, and byte strings held against each other.
ghost use Rattle.std.specs.Prelude.{◌≡◌};
ghost use Rattle.std.specs.Str.{bytes_eq};
ghost use Rattle.tables.specs.Parts.{part};

// A part of the manifest: the byte at which it begins, and how many bytes it has.
#[derive(Clone, Copy, Debug, Default, PartialEq, Eq)]
pub struct Span {
    pub at: usize,
    pub len: usize,
}

impl Span {
    // The bytes of this part, none where it reaches past the bytes.
    pub fn part<'a>(&self, bytes: &'a [u8]) -> &'a [u8]
        ensures { result.now ≡ part bytes.now self.now }
    {
        let rest = bytes.get(self.at..);
        rest.and_then(|rest| rest.get(..self.len)).unwrap_or(&[])
    }
}

// Whether two byte strings are the same, byte by byte. Every name is held against a byte string by this one call.
pub fn same(a: &[u8], b: &[u8]) -> bool
    ensures { result ≡ bytes_eq a.now b.now }
{
    a == b
}
