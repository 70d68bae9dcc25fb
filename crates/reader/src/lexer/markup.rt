// Tags and elements: the manifest's rows.
ghost use Rattle.std.specs.Prelude.{◌≡◌, ℕ, ◌+◌, ◌<◌, ◌≤◌, true, ◌&&◌, [], if◌then◌else◌, length, Ok, OnOk, false, ◌==◌, nat_lt, slice_index};
ghost use Rattle.tables.specs.Leaving.{Kept};
ghost use Rattle.tables.specs.Rows.{held, capacity};
ghost use Rattle.tables.specs.declared.span.Span.{Span as Part};
ghost use Rattle.reader.specs.Cursor.{comes, Onward};
ghost use Rattle.reader.specs.Machine.{inside, tag, attribute, naming, angle, close, outside, start, nothing, from as becomes};
ghost use Rattle.reader.specs.Outcomes.{answer, read_into, went, Tabled};
ghost use Rattle.reader.specs.Rows.{documented, after, accepted_in, Gained, Attributed};
ghost use Rattle.reader.specs.Tags.{behind, leads};
ghost use Rattle.reader.specs.declared.fault.ReadRefusal.TheVariants.{Ampersand, Grammar};

use super::Reader;
use super::class::Class;
use super::rows::Rows;
use crate::fault::{ReadFault, ReadRefusal};
use tables::{Attribute, Element, ManifestRows, Span, Table, same};

// How a start tag ends: in '>' or in '/>'.
#[derive(Clone, Copy)]
enum TagEnd {
    Open,
    Empty,
}

// An element may stand on the levels 1 to this.
const LEVELS: usize = 16;

const NO_TEXT: Span = Span { at: 0, len: 0 };

// The attribute whose name begins at the cursor, of the element that is the next to get a row.
fn read_attribute(reader: &mut Reader, rows: &mut Rows) -> Result<(), ReadFault>
    ensures onward { Onward reader.old reader.new }
    ensures attributed { Attributed rows.old rows.new }
    ensures goes { (e : Part) → after reader.old rows.old (attribute (documented rows.old) e reader.old.pos) ≡ went result (λ _. after reader.new rows.new (tag (documented rows.new) e false)) }
{
    let name = reader.token(Class::Name);
    if rows.attributes.is_full() {
        return Err(ReadRefusal::AttributesFull.at(name.at));
    }
    if rows.is_twice(reader.src, name.text) {
        return Err(ReadRefusal::AttributeTwice.at(name.at));
    }
    let value = reader.value()?;
    rows.add_attribute(name.span(), value.span(), name.at)
}

// What stands next in a start tag, an attribute or the tag's end: the cursor goes behind it.
fn tag_part(reader: &mut Reader, rows: &mut Rows) -> Result<Option<TagEnd>, ReadFault>
    ensures onward { Onward reader.old reader.new }
    ensures further { OnOk result (reader.old.pos < reader.new.pos) }
    ensures attributed { Attributed rows.old rows.new }
    ensures goes { (e : Part) → after reader.old rows.old (tag (documented rows.old) e false) ≡ went result (λ part. after reader.new rows.new (behind part (documented rows.new) e reader.new.pos)) }
{
    let gap = reader.token(Class::Blank);
    match reader.byte()? {
        b'>' => {
            reader.advance();
            Ok(Some(TagEnd::Open))
        }
        b'/' => {
            reader.advance();
            reader.expect(b">")?;
            Ok(Some(TagEnd::Empty))
        }
        _ if gap.text.is_empty() => Err(reader.refuse(ReadRefusal::Grammar)),
        _ => {
            reader.need(Class::First)?;
            read_attribute(reader, rows)?;
            Ok(None)
        }
    }
}

// The rest of a start tag behind its name.
fn rest_of_tag(reader: &mut Reader, rows: &mut Rows) -> Result<TagEnd, ReadFault>
    ensures onward { Onward reader.old reader.new }
    ensures attributed { Attributed rows.old rows.new }
    ensures goes { (e : Part) → after reader.old rows.old (tag (documented rows.old) e false) ≡ went result (λ end. after reader.new rows.new (leads end (documented rows.new) e reader.new.pos)) }
{
    'parts: loop {
        if let Some(end) = tag_part(reader, rows)? {
            return Ok(end);
        }
    }
}

// The element whose name begins at the cursor, up to its text's end.
fn read_element(reader: &mut Reader, rows: &mut Rows) -> Result<(), ReadFault>
    ensures onward { Onward reader.old reader.new }
    ensures gained { Gained rows.old rows.new }
    ensures goes { after reader.old rows.old (naming (documented rows.old) reader.old.pos) ≡ went result (λ _. after reader.new rows.new (outside (documented rows.new))) }
{
    let name = reader.token(Class::Name);
    let byte = name.at.saturating_sub(1);
    if rows.depth >= LEVELS {
        return Err(ReadRefusal::TooDeep.at(byte));
    }
    if rows.elements.is_full() {
        return Err(ReadRefusal::ElementsFull.at(byte));
    }
    match rest_of_tag(reader, rows)? {
        TagEnd::Empty => rows.add_element(name.span(), NO_TEXT, byte),
        TagEnd::Open => {
            let text = reader.text()?;
            rows.open(name.span(), text.span(), byte)
        }
    }
}

// The closing tag behind its `</`.
fn close_element(reader: &mut Reader, rows: &mut Rows) -> Result<(), ReadFault>
    ensures onward { Onward reader.old reader.new }
    ensures gained { Gained rows.old rows.new }
    ensures goes { after reader.old rows.old (close (documented rows.old)) ≡ went result (λ _. after reader.new rows.new (outside (documented rows.new))) }
{
    reader.need(Class::First)?;
    let name = reader.token(Class::Name);
    let open = rows.innermost();
    if !same(open.name.part(reader.src), name.text) {
        return Err(ReadRefusal::ClosingName.at(name.at));
    }
    reader.token(Class::Blank);
    reader.expect(b">")?;
    rows.close();
    Ok(())
}

// What stands behind a '<': a comment, a closing tag, or an element up to its text's end.
fn markup(reader: &mut Reader, rows: &mut Rows) -> Result<(), ReadFault>
    ensures onward { Onward reader.old reader.new }
    ensures gained { Gained rows.old rows.new }
    ensures goes { after reader.old rows.old (angle (documented rows.old)) ≡ went result (λ _. after reader.new rows.new (outside (documented rows.new))) }
{
    match reader.byte()? {
        b'!' => {
            reader.advance();
            reader.comment()
        }
        b'/' => {
            if !rows.is_inside() {
                return Err(reader.refuse(ReadRefusal::Grammar));
            }
            reader.advance();
            close_element(reader, rows)
        }
        _ => {
            reader.need(Class::First)?;
            if !rows.may_begin() {
                return Err(reader.refuse(ReadRefusal::Grammar));
            }
            read_element(reader, rows)
        }
    }
}

// Why a byte may not stand between tags, inside the root or not.
fn stray(inside: bool, b: u8) -> ReadRefusal
    ensures { result ≡ (if inside && b == 38 then Ampersand else Grammar) }
{
    if inside && b == b'&' {
        ReadRefusal::Ampersand
    } else {
        ReadRefusal::Grammar
    }
}

// Goes behind the next '<'; false where the manifest ends and its root is closed.
fn next_markup(reader: &mut Reader, rows: &Rows) -> Result<bool, ReadFault>
    ensures onward { Onward reader.old reader.new }
    ensures further { result ≡ Ok true → reader.old.pos < reader.new.pos }
    ensures goes { after reader.old rows.now (outside (documented rows.now)) ≡ went result (λ more. (if more then after reader.new rows.now (angle (documented rows.now)) else accepted_in rows.now.elements.now rows.now.attributes.now)) }
{
    let inside = rows.is_inside();
    reader.token(Class::Loose { inside });
    match reader.peek() {
        Some(b'<') => {
            reader.advance();
            Ok(true)
        }
        Some(b) => Err(reader.refuse(stray(inside, b))),
        None if rows.is_finished() => Ok(false),
        None => Err(reader.refuse(ReadRefusal::Grammar)),
    }
}

// Whether the manifest begins with `<?`.
fn is_declared(src: &[u8]) -> bool
    ensures { result ≡ (nat_lt 1 (length src.now) && (slice_index src.now 0 == 60 && slice_index src.now 1 == 63)) }
{
    src.starts_with(b"<?")
}

// The declaration, where there is one at byte 0.
fn prolog(reader: &mut Reader) -> Result<(), ReadFault>
    ensures onward { Onward reader.old reader.new }
    ensures goes { reader.old.pos ≡ 0 → (E A : ℕ) → comes reader.old E A start ≡ went result (λ _. comes reader.new E A (outside nothing)) }
{
    if !is_declared(reader.src) {
        return Ok(());
    }
    reader.advance();
    reader.advance();
    reader.declaration()
}

// What stands behind the declaration, up to the manifest's end.
fn read_rows(reader: &mut Reader, rows: &mut Rows) -> Result<(), ReadFault>
    ensures gained { Gained rows.old rows.new }
    ensures goes { after reader.old rows.old (outside (documented rows.old)) ≡ went result (λ _. accepted_in rows.new.elements.now rows.new.attributes.now) }
{
    'markup: while next_markup(reader, rows)? {
        markup(reader, rows)?;
    }
    Ok(())
}

// The whole manifest, into tables that have no rows yet. They are two parameters and no `ManifestRows`: the check
// does not see through a struct literal over two reborrowed fields (tried).
fn read_document(
    src: &[u8],
    elements: &mut Table<Element>,
    attributes: &mut Table<Attribute>,
) -> Result<(), ReadFault>
    ensures elements { Kept elements.old elements.new }
    ensures attributes { Kept attributes.old attributes.new }
    ensures goes { held elements.old ≡ [] → held attributes.old ≡ [] →
        becomes src.now (capacity elements.old) (capacity attributes.old) start 0
        ≡ went result (λ _. accepted_in elements.new attributes.new) }
{
    let mut reader = Reader::new(src);
    prolog(&mut reader)?;
    let mut rows = Rows {
        elements,
        attributes,
        inner: 0,
        depth: 0,
    };
    read_rows(&mut reader, &mut rows)
}

// A manifest has at most so many bytes.
pub const LIMIT: usize = 65_536;

// Reads a manifest into rows of its elements and attributes. What the tables held before is given up;
// after a refusal they hold no rows.
pub fn read(manifest: &[u8], rows: &mut ManifestRows) -> Result<(), ReadFault>
    ensures answer { result ≡ answer (read_into manifest.now rows.old) }
    ensures tables { Tabled manifest.now rows.old rows.new }
{
    rows.clear();
    let answer = read_bounded(manifest, rows);
    if answer.is_err() {
        rows.clear();
    }
    answer
}

// The same into tables that have no rows yet. After a refusal they keep the rows that were read before it.
fn read_bounded(manifest: &[u8], rows: &mut ManifestRows) -> Result<(), ReadFault>
    ensures elements { Kept rows.old.elements rows.new.elements }
    ensures attributes { Kept rows.old.attributes rows.new.attributes }
    ensures goes { held rows.old.elements ≡ [] → held rows.old.attributes ≡ [] →
        read_into manifest.now rows.old
        ≡ went result (λ _. accepted_in rows.new.elements rows.new.attributes) }
{
    if manifest.len() > LIMIT {
        return Err(ReadRefusal::TooLong.at(0));
    }
    read_document(manifest, &mut rows.elements, &mut rows.attributes)
}
