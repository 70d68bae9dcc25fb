// The manifest's bytes under a cursor: tokens, comments and the declaration.
ghost use Rattle.std.specs.Prelude.{◌≡◌, ℕ, ◌+◌, ◌-◌, ◌<◌, ◌≤◌, Bool, true, false, ◌&&◌, length, codes, MatchOption, MatchResult, ◌==◌, nat_le, slice_range};
ghost use Rattle.tables.specs.Zero.{span};
ghost use Rattle.tables.specs.declared.span.Span.{Span as Part};
ghost use Rattle.reader.specs.Classes.{holds};
ghost use Rattle.reader.specs.Machine.{Document, State, dashes as dashed, declaration, outside, comment, sign, value, tag, text, opened, valued, nothing, reads};
ghost use Rattle.reader.specs.Outcomes.{fault, went};
ghost use Rattle.reader.specs.declared.fault.ReadRefusal.TheVariants.{Grammar};

use self::class::Class;
use crate::fault::{ReadFault, ReadRefusal};
use tables::Span;

mod class;
pub mod markup;
mod rows;

// A part of the manifest, and the byte at which it begins.
#[derive(Clone, Copy)]
struct Token<'a> {
    text: &'a [u8],
    at: usize,
}

impl Token<'_> {
    fn span(&self) -> Span
        ensures { result ≡ span self.now.at (length self.now.text.now) }
    {
        Span {
            at: self.at,
            len: self.text.len(),
        }
    }
}

// The manifest, and how far it has been read. It is the whole manifest with a cursor, and not the rest of it, since
// rows and refusals name their bytes by their places in the whole.
#[derive(Drop)]
struct Reader<'a> {
    src: &'a [u8],
    pos: usize,
    ghost within: { pos ≤ length src.now },
}

impl<'a> Reader<'a> {
    ghost use Rattle.reader.specs.Cursor.{comes, Onward, Stands, Lacks, Took, Ran, Misses};

    fn new(src: &'a [u8]) -> Reader<'a>
        ensures { (result.src.now ≡ src.now) × (result.pos ≡ 0) }
    {
        Reader { src, pos: 0 }
    }

    // The byte at the cursor.
    fn peek(&self) -> Option<u8>
        ensures { MatchOption result (length self.now.src.now ≤ self.now.pos) (λ b. Stands self.now b) }
    {
        self.src.get(self.pos).copied()
    }

    // A refusal at the cursor.
    fn refuse(&self, refusal: ReadRefusal) -> ReadFault
        ensures { result ≡ fault refusal self.now.pos }
    {
        refusal.at(self.pos)
    }

    // The byte at the cursor, where there has to be one.
    fn byte(&self) -> Result<u8, ReadFault>
        ensures { MatchResult result
            (λ b. Stands self.now b)
            (λ f. (length self.now.src.now ≤ self.now.pos) × (f ≡ fault Grammar self.now.pos)) }
    {
        self.peek().ok_or(self.refuse(ReadRefusal::Grammar))
    }

    // A byte of the class has to stand at the cursor.
    fn need(&self, class: Class) -> Result<u8, ReadFault>
        ensures { MatchResult result
            (λ b. Stands self.now b × (holds class b ≡ true))
            (λ f. Lacks (holds class) self.now × (f ≡ fault Grammar self.now.pos)) }
    {
        let b = self.byte()?;
        if class.has(b) {
            return Ok(b);
        }
        Err(self.refuse(ReadRefusal::Grammar))
    }

    // The byte has to stand at the cursor, as it does behind a value and a text.
    fn ends(&self, last: u8) -> Result<(), ReadFault>
        ensures { MatchResult result (λ _. Stands self.now last) (λ f. Misses last self.now f) }
    {
        match self.byte()? {
            b if b == last => Ok(()),
            b'&' => Err(self.refuse(ReadRefusal::Ampersand)),
            _ => Err(self.refuse(ReadRefusal::Grammar)),
        }
    }

    // Goes behind the byte at the cursor, where there is one.
    fn advance(&mut self)
        ensures onward { Onward self.old self.new }
        ensures pos { self.old.pos < length self.old.src.now → self.new.pos ≡ self.old.pos + 1 }
    {
        if self.pos < self.src.len() {
            self.pos += 1;
        }
    }

    // A byte of the class has to stand at the cursor, which goes behind it.
    fn take(&mut self, class: Class) -> Result<u8, ReadFault>
        ensures onward { Onward self.old self.new }
        ensures answer { MatchResult result
            (λ b. Took (holds class) self.old self.new b)
            (λ f. Lacks (holds class) self.old × (f ≡ fault Grammar self.old.pos)) }
    {
        let b = self.need(class)?;
        self.advance();
        Ok(b)
    }

    // The run of bytes of the class at the cursor, which goes behind it.
    fn token(&mut self, class: Class) -> Token<'a>
        ensures ran { Ran (holds class) self.old self.new }
        ensures at { result.at ≡ self.old.pos }
        ensures text { result.text.now ≡ slice_range self.new.src.now self.old.pos self.new.pos }
        ensures len { length result.text.now ≡ self.new.pos - self.old.pos }
    {
        let src = self.src;
        let at = self.pos;
        let end = at + class.run(&src[at..]);
        self.pos = end;
        Token {
            text: &src[at..end],
            at,
        }
    }

    // The bytes of the word have to stand at the cursor, which goes behind them.
    fn expect(&mut self, word: &[u8]) -> Result<(), ReadFault>
        ensures onward { Onward self.old self.new }
        ensures goes { (E A : ℕ) (s : State) → comes self.old E A (reads word.now s) ≡ went result (λ _. comes self.new E A s) }
    {
        for w in word {
            self.take(Class::Only { byte: *w })?;
        }
        Ok(())
    }

    // The rest of a comment behind its `<!`: the cursor goes behind its `-->`.
    fn comment(&mut self) -> Result<(), ReadFault>
        ensures onward { Onward self.old self.new }
        ensures goes { (E A : ℕ) (d : Document) → comes self.old E A (reads (codes "--") (comment 0 d)) ≡ went result (λ _. comes self.new E A (outside d)) }
    {
        self.expect(b"--")?;
        let mut dashes = 0;
        'bytes: loop {
            let b = self.take(Class::Visible)?;
            if ends_comment(dashes, b) {
                return Ok(());
            }
            dashes = dashes_with(dashes, b);
        }
    }

    // The rest of the declaration behind its `<?`: the cursor goes behind its `?>`.
    fn declaration(&mut self) -> Result<(), ReadFault>
        ensures onward { Onward self.old self.new }
        ensures goes { (E A : ℕ) → comes self.old E A (reads (codes "xml") (declaration false)) ≡ went result (λ _. comes self.new E A (outside nothing)) }
    {
        self.expect(b"xml")?;
        let mut question = false;
        'bytes: loop {
            let b = self.take(Class::Ascii)?;
            if ends_declaration(question, b) {
                return Ok(());
            }
            question = b == b'?';
        }
    }

    // What stands between an attribute's name and its value: the cursor goes behind the quote.
    fn opening(&mut self) -> Result<u8, ReadFault>
        ensures onward { Onward self.old self.new }
        ensures goes { (E A : ℕ) (d : Document) (e a : Part) → comes self.old E A (sign d e a) ≡ went result (λ q. comes self.new E A (value d e a self.new.pos q)) }
    {
        self.token(Class::Blank);
        self.expect(b"=")?;
        self.token(Class::Blank);
        self.take(Class::Quote)
    }

    // The value behind an attribute's name: the cursor goes behind its last quote.
    fn value(&mut self) -> Result<Token<'a>, ReadFault>
        ensures onward { Onward self.old self.new }
        ensures goes { (E A : ℕ) (d : Document) (e a : Part) → comes self.old E A (sign d e a) ≡ went result (λ v. comes self.new E A (tag (valued d a (span v.at (length v.text.now))) e false)) }
    {
        let quote = self.opening()?;
        let value = self.token(Class::Value { quote });
        self.ends(quote)?;
        self.advance();
        Ok(value)
    }

    // The text behind a start tag: the cursor goes to the '<' behind it.
    fn text(&mut self) -> Result<Token<'a>, ReadFault>
        ensures onward { Onward self.old self.new }
        ensures goes { (E A : ℕ) (d : Document) (e : Part) → comes self.old E A (text d e self.old.pos) ≡ went result (λ t. comes self.new E A (outside (opened d e (span t.at (length t.text.now))))) }
    {
        let text = self.token(Class::Text);
        self.ends(b'<')?;
        Ok(text)
    }
}

// How many '-' came last, 2 for more, once the byte came after so many.
fn dashes_with(dashes: u8, b: u8) -> u8
    ensures { result ≡ dashed dashes b }
{
    if b != b'-' {
        return 0;
    }
    1 + dashes.min(1)
}

// Whether the byte ends a comment behind so many '-'.
fn ends_comment(dashes: u8, b: u8) -> bool
    ensures { result ≡ (nat_le 2 dashes && b == 62) }
{
    dashes >= 2 && b == b'>'
}

// Whether the byte ends the declaration, where the one before was '?' or not.
fn ends_declaration(question: bool, b: u8) -> bool
    ensures { result ≡ (question && b == 62) }
{
    question && b == b'>'
}
