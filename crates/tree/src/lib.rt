// Questions over the rows of a manifest, whoever made the rows.
#![tactic(auto)]

ghost use Rattle.std.specs.Prelude.{◌≡◌};
ghost use Rattle.std.specs.Option.{option_map};
ghost use Rattle.std.specs.List.{slice_get};
ghost use Rattle.tables.specs.Rows.{held};
ghost use Rattle.tree.specs.Questions.{is_child};
ghost use Rattle.tree.specs.Trees.{name_in, text_in, value_in, child_in, is_child_in, children_in, FirstValueIn, FirstChildIn};

mod children;

pub use children::Children;
use tables::{Attribute, Element, ManifestRows, same};

// A manifest and its rows. A part that reaches past the manifest is empty. A row that is not there
// has no name, no text and no children; its attributes are those that name it, whether it is there or not.
#[derive(Clone, Copy)]
pub struct Tree<'m, 'r> {
    pub manifest: &'m [u8],
    pub elements: &'r [Element],
    pub attributes: &'r [Attribute],
}

impl<'m, 'r> Tree<'m, 'r> {
    // The manifest with the rows that it was read into.
    pub fn of(manifest: &'m [u8], rows: &'r ManifestRows) -> Tree<'m, 'r>
        ensures manifest { result.manifest.now ≡ manifest.now }
        ensures elements { result.elements.now ≡ held rows.now.elements }
        ensures attributes { result.attributes.now ≡ held rows.now.attributes }
    {
        Tree {
            manifest,
            elements: rows.elements.rows(),
            attributes: rows.attributes.rows(),
        }
    }

    // The name of the element in the row.
    pub fn name(&self, row: usize) -> &'m [u8]
        ensures { result.now ≡ name_in self.now row }
    {
        self.elements
            .get(row)
            .map_or(&[], |element| element.name.part(self.manifest))
    }

    // The text of the element in the row.
    pub fn text(&self, row: usize) -> &'m [u8]
        ensures { result.now ≡ text_in self.now row }
    {
        self.elements
            .get(row)
            .map_or(&[], |element| element.text.part(self.manifest))
    }

    // The value of the element's attribute of that name, the first of equal ones.
    pub fn attribute(&self, row: usize, name: &[u8]) -> Option<&'m [u8]>
        ensures value { option_map (λ x. x.now) result ≡ value_in self.now row name.now }
        ensures first { FirstValueIn self.now row name.now (option_map (λ x. x.now) result) }
    {
        let manifest = self.manifest;
        self.attributes
            .iter()
            .find(|attribute| attribute.is_of(manifest, row, name))
            .map(|attribute| attribute.value.part(manifest))
    }

    // The row of the element's first child of that name.
    pub fn child(&self, row: usize, name: &[u8]) -> Option<usize>
        ensures row { result ≡ child_in self.now row name.now }
        ensures first { FirstChildIn self.now row name.now result }
    {
        self.children(row, name).next()
    }

    // Whether the row is that of a child of the element in the row `parent`, with that name.
    pub fn is_child(&self, row: usize, parent: usize, name: &[u8]) -> bool
        ensures { result ≡ is_child_in self.now parent name.now row }
    {
        let manifest = self.manifest;
        parent < row
            && self
                .elements
                .get(row)
                .is_some_and(|element| child_is(manifest, element, parent, name))
    }

    // The row of the element's child of that name at a position, from 0.
    pub fn nth_child(&self, row: usize, name: &[u8], position: usize) -> Option<usize>
        ensures { result ≡ slice_get (children_in self.now row name.now) position }
    {
        self.children(row, name).nth(position)
    }
}

// Whether it is a child of the element in the row, with that name.
fn child_is(manifest: &[u8], element: &Element, row: usize, name: &[u8]) -> bool
    ensures { result ≡ is_child manifest.now row name.now element.now }
{
    element.parent == row && same(element.name.part(manifest), name)
}
