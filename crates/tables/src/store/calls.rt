// The calls of a table.
ghost use Rattle.std.specs.Prelude.{◌≡◌, ℕ, ◌<◌, List, [], ◌∷◌, ◌++◌, length, MatchResult, nat_le};
ghost use Rattle.tables.specs.Rows.{held, capacity, Clean, IsFull};

use super::Table;
use crate::row::{Full, Row};

impl<'a, R: Row> Table<'a, R> {
    // A table without rows, over the caller's slice, which is made zero.
    pub fn new(rows: &'a mut [R]) -> Table<'a, R>
        ensures held { held result ≡ [] }
        ensures capacity { capacity result ≡ length rows.old }
        ensures clean { Clean R.Row.zero result }
        ensures lent { result.rows.ghost_name ≡ rows.entry.ghost_name }
    {
        let mut table = Table { rows, used: 0 };
        table.clear();
        table
    }

    // How many rows are in use.
    pub fn len(&self) -> usize
        ensures { result ≡ length (held self.now) }
    {
        self.rows().len()
    }

    // Whether there is no row left to use.
    pub fn is_full(&self) -> bool
        ensures { result ≡ nat_le (capacity self.now) (length (held self.now)) }
    {
        self.len() >= self.rows.len()
    }

    // The rows in use.
    pub fn rows(&self) -> &[R]
        ensures { result.now ≡ held self.now }
    {
        &self.rows[..self.used]
    }

    // Takes one row more, and refuses it only when every row is used.
    pub fn push(&mut self, row: R) -> Result<(), Full>
        ensures answer { MatchResult result
            (λ _. (length (held self.old) < capacity self.old) × (held self.new ≡ held self.old ++ row ∷ []))
            (λ _. IsFull self.old × (held self.new ≡ held self.old)) }
        ensures capacity { capacity self.new ≡ capacity self.old }
        ensures clean { (z : R) → Clean z self.old → Clean z self.new }
        ensures lent { self.new.rows.ghost_name ≡ self.old.rows.ghost_name }
    {
        if self.is_full() {
            return Err(Full);
        }
        self.rows[self.used] = row;
        self.used += 1;
        Ok(())
    }

    // Gives up every row: all of the slice is zero.
    pub fn clear(&mut self)
        ensures held { held self.new ≡ [] }
        ensures capacity { capacity self.new ≡ capacity self.old }
        ensures clean { Clean R.Row.zero self.new }
        ensures lent { self.new.rows.ghost_name ≡ self.old.rows.ghost_name }
    {
        self.used = 0;

        // Not `fill`, which asks that no clone of a row can fail: `Copy` does not promise that.
        for row in self.rows.iter_mut() {
            *row = R::zeroed();
        }
    }
}
