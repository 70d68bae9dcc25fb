// An S element as it is written.
ghost use Rattle.std.specs.Prelude.{◌≡◌};
ghost use Rattle.tree.specs.Trees.{on, value_in};
ghost use Rattle.values.specs.Given.{present, ReadsAll};
ghost use Rattle.values.specs.Whole.{whole_in};
ghost use Rattle.expand.specs.Expanding.{open_ended};
ghost use Rattle.expand.specs.Stating.{stated_at, asked_of};

use timeline::LATEST_END;
use tree::Tree;
use values::{ValueFault, repeat_if, whole_if};

// Its t, d and r. Without r it has 0, and so without d: an S of length 0 is refused just as one that has none.
#[derive(Clone, Copy, Debug, PartialEq, Eq)]
pub struct Stated {
    pub time: Option<u64>,
    pub length: u64,
    pub repeat: i32,
}

impl Stated {
    // Whether it repeats up to the end.
    pub(crate) fn is_endless(self) -> bool
        ensures { result ≡ open_ended self.repeat }
    {
        self.repeat < 0
    }
}

// The S in the row. What cannot be read is as if it were absent.
pub(crate) fn stated_at(tree: &Tree, row: usize) -> Stated
    ensures { result ≡ on stated_at tree.now row }
{
    let repeat = repeat_if(tree.attribute(row, b"r")).ok().flatten();
    Stated {
        time: ticks(tree, row, b"t"),
        length: ticks(tree, row, b"d").unwrap_or(0),
        repeat: repeat.unwrap_or(0),
    }
}

// The tick that an attribute of the S is.
fn ticks(tree: &Tree, row: usize, name: &[u8]) -> Option<u64>
    ensures { result ≡ present (whole_in 0 9007199254740992) (value_in tree.now row name.now) }
{
    whole_if(tree.attribute(row, name), 0, LATEST_END)
        .ok()
        .flatten()
}

// Reads the values of the S in the row.
pub(crate) fn read_at(tree: &Tree, row: usize) -> Result<(), ValueFault>
    ensures { ReadsAll (on asked_of tree.now row) result }
{
    whole_if(tree.attribute(row, b"t"), 0, LATEST_END)?;
    whole_if(tree.attribute(row, b"d"), 0, LATEST_END)?.ok_or(ValueFault::NoWholeNumber)?;
    repeat_if(tree.attribute(row, b"r"))?;
    Ok(())
}
