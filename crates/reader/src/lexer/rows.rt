// The rows that a manifest is read into, and how deep the reading stands in them.
ghost use Rattle.std.specs.Prelude.{◌≡◌, ◌+◌, ◌<◌, ◌≤◌, [], ◌∷◌, ◌++◌, length, MatchResult, ◌||◌, slice_index_or};
ghost use Rattle.std.specs.List.{list_any};
ghost use Rattle.tables.specs.Parts.{is_of};
ghost use Rattle.tables.specs.Rows.{held, IsFull};
ghost use Rattle.tables.specs.Zero.{no_element};
ghost use Rattle.reader.specs.Machine.{inside, rootless, finished, valued, opened, shut};
ghost use Rattle.reader.specs.Rows.{documented, added, Gained, Attributed};

use crate::fault::{ReadFault, ReadRefusal};
use tables::{Attribute, Element, Row, Span, Table};

// The tables, the row of the innermost open element (0 where none is open), and how many are open. The row is no
// `Option` whose element's level is the depth: closing would then rest on a fact about all rows, that an element's
// level is one more than its parent's.
#[derive(Drop)]
pub(super) struct Rows<'t, 'e, 'a> {
    pub(super) elements: &'t mut Table<'e, Element>,
    pub(super) attributes: &'t mut Table<'a, Attribute>,
    pub(super) inner: usize,
    pub(super) depth: usize,
}

impl Rows<'_, '_, '_> {
    // Whether an element is open.
    pub(super) fn is_inside(&self) -> bool
        ensures { result ≡ inside (documented self.now) }
    {
        self.depth > 0
    }

    // Whether an element may begin: inside the root, or where none has been read.
    pub(super) fn may_begin(&self) -> bool
        ensures { result ≡ (inside (documented self.now) || rootless (documented self.now)) }
    {
        self.depth > 0 || self.elements.len() == 0
    }

    // Whether the root is closed.
    pub(super) fn is_finished(&self) -> bool
        ensures { result ≡ finished (documented self.now) }
    {
        self.depth == 0 && self.elements.len() != 0
    }

    // Whether an attribute of the next element has the name.
    pub(super) fn is_twice(&self, src: &[u8], name: &[u8]) -> bool
        ensures { result ≡ list_any (is_of src.now (length (held self.now.elements.now)) name.now) (held self.now.attributes.now) }
    {
        let element = self.elements.len();
        self.attributes
            .rows()
            .iter()
            .any(|attribute| attribute.is_of(src, element, name))
    }

    // The innermost open element, the zero row where there is none.
    pub(super) fn innermost(&self) -> Element
        ensures { result ≡ slice_index_or (held self.now.elements.now) self.now.inner no_element }
    {
        let rows = self.elements.rows();
        rows.get(self.inner).copied().unwrap_or(Element::zeroed())
    }

    // Takes the row of an attribute of the next element; its name begins at the byte.
    pub(super) fn add_attribute(
        &mut self,
        name: Span,
        value: Span,
        byte: usize,
    ) -> Result<(), ReadFault>
        ensures attributed { Attributed self.old self.new }
        ensures answer { MatchResult result
            (λ _. documented self.new ≡ valued (documented self.old) name value)
            (λ _. IsFull self.old.attributes.now) }
    {
        let row = Attribute {
            element: self.elements.len(),
            name,
            value,
        };
        self.attributes
            .push(row)
            .map_err(|_| ReadRefusal::AttributesFull.at(byte))
    }

    // Takes the row of an element whose name begins behind the byte.
    pub(super) fn add_element(
        &mut self,
        name: Span,
        text: Span,
        byte: usize,
    ) -> Result<(), ReadFault>
        requires { self.old.depth < 16 }
        ensures gained { Gained self.old self.new }
        ensures answer { MatchResult result
            (λ _. documented self.new ≡ added (documented self.old) name text)
            (λ _. IsFull self.old.elements.now) }
    {
        let row = Element {
            name,
            parent: self.inner,
            level: self.depth + 1,
            text,
        };
        self.elements
            .push(row)
            .map_err(|_| ReadRefusal::ElementsFull.at(byte))
    }

    // The same, and the element is open from here on.
    pub(super) fn open(&mut self, name: Span, text: Span, byte: usize) -> Result<(), ReadFault>
        requires { self.old.depth < 16 }
        ensures gained { Gained self.old self.new }
        ensures answer { MatchResult result
            (λ _. documented self.new ≡ opened (documented self.old) name text)
            (λ _. IsFull self.old.elements.now) }
    {
        let row = self.elements.len();
        self.add_element(name, text, byte)?;
        self.inner = row;
        self.depth += 1;
        Ok(())
    }

    // Closes the innermost open element.
    pub(super) fn close(&mut self)
        ensures gained { Gained self.old self.new }
        ensures shut { documented self.new ≡ shut (documented self.old) }
    {
        self.inner = self.innermost().parent;
        self.depth = self.depth.saturating_sub(1);
    }
}
