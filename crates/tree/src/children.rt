// The children of an element, one after the other.
ghost use Rattle.std.specs.Prelude.{◌≡◌, ℕ, ◌+◌, List, length};
ghost use Rattle.std.specs.Iterator.{YieldsFirst, item_count};
ghost use Rattle.tree.specs.Questions.{rows_from};
ghost use Rattle.tree.specs.Trees.{is_child_in, children_in};

use crate::Tree;
use std::marker::Model;

// The rows of an element's children of one name, in their order.
#[derive(Drop)]
pub struct Children<'n, 'm, 'r> {
    tree: Tree<'m, 'r>,
    parent: usize,
    name: &'n [u8],
    // The row that was told last, at first the parent's.
    last: usize,
}

impl<'m, 'r> Tree<'m, 'r> {
    // The rows of the element's children of that name, in their order.
    pub fn children<'n>(&self, row: usize, name: &'n [u8]) -> Children<'n, 'm, 'r>
        ensures { result ≡ children_in self.now row name.now }
    {
        Children {
            tree: *self,
            parent: row,
            name,
            last: row,
        }
    }
}

// It is seen as the list of the rows that are left.
impl<'n, 'm, 'r> Model for Children<'n, 'm, 'r> {
    ghost Value = { List ℕ };

    ghost view = { λ c. rows_from (is_child_in c.tree c.parent c.name.now) (length c.tree.elements.now) (c.last + 1) };
}

impl<'n, 'm, 'r> Iterator for Children<'n, 'm, 'r> {
    type Item = usize;

    ghost next_gives = { YieldsFirst (λ rows. rows) };

    ghost remaining = { item_count (λ rows. rows) };

    fn next(&mut self) -> Option<usize> {
        let mut left = self.last.saturating_add(1)..self.tree.elements.len();
        let row = left.find(|row| self.tree.is_child(*row, self.parent, self.name))?;
        self.last = row;
        Some(row)
    }
}
