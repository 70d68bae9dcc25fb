// The rows that a manifest is read into.
ghost use Rattle.tables.specs.Zero.{no_element, no_attribute};

use crate::row::Row;
use crate::span::{Span, same};
use crate::store::Table;

// An element: its name, the row of its parent (the root's is its own), its level (the root's is 1),
// and its text up to the next '<'.
#[derive(Clone, Copy, Debug, Default, PartialEq, Eq)]
pub struct Element {
    pub name: Span,
    pub parent: usize,
    pub level: usize,
    pub text: Span,
}

// An attribute: the row of its element, its name, and its value between the quotes.
#[derive(Clone, Copy, Debug, Default, PartialEq, Eq)]
pub struct Attribute {
    pub element: usize,
    pub name: Span,
    pub value: Span,
}

// The two tables that a manifest is read into.
#[derive(Drop)]
pub struct ManifestRows<'e, 'a> {
    pub elements: Table<'e, Element>,
    pub attributes: Table<'a, Attribute>,
}

impl Attribute {
    ghost use Rattle.std.specs.Prelude.{◌≡◌};
    ghost use Rattle.tables.specs.Parts.{is_of};

    // Whether it is an attribute of the element in the row, with that name.
    pub fn is_of(&self, manifest: &[u8], element: usize, name: &[u8]) -> bool
        ensures { result ≡ is_of manifest.now element name.now self.now }
    {
        self.element == element && same(self.name.part(manifest), name)
    }
}

impl<'e, 'a> ManifestRows<'e, 'a> {
    ghost use Rattle.std.specs.Prelude.{◌≡◌, [], length};
    ghost use Rattle.tables.specs.Leaving.{Filled, Fresh};

    // Two tables without rows, each over the caller's slice, which is made zero.
    pub fn new(elements: &'e mut [Element], attributes: &'a mut [Attribute]) -> ManifestRows<'e, 'a>
        ensures elements { Fresh no_element (length elements.old) result.elements }
        ensures elements_lent { result.elements.rows.ghost_name ≡ elements.entry.ghost_name }
        ensures attributes { Fresh no_attribute (length attributes.old) result.attributes }
        ensures attributes_lent { result.attributes.rows.ghost_name ≡ attributes.entry.ghost_name }
    {
        ManifestRows {
            elements: Table::new(elements),
            attributes: Table::new(attributes),
        }
    }

    // Gives up every row of both tables.
    pub fn clear(&mut self)
        ensures elements { Filled no_element self.old.elements [] self.new.elements }
        ensures attributes { Filled no_attribute self.old.attributes [] self.new.attributes }
    {
        self.elements.clear();
        self.attributes.clear();
    }
}

impl Row for Element {
    ghost zero = { no_element };

    fn zeroed() -> Element {
        Element::default()
    }
}

impl Row for Attribute {
    ghost zero = { no_attribute };

    fn zeroed() -> Attribute {
        Attribute::default()
    }
}
