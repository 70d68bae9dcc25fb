// From S elements to runs.
ghost use Rattle.std.specs.Prelude.{◌≡◌, ◌+◌, min, true, [], OnOk};
ghost use Rattle.tables.specs.Leaving.{Filled, Kept, left_after};
ghost use Rattle.tables.specs.Rows.{held, capacity};
ghost use Rattle.timeline.specs.Runs.{no_run, fair_runs};
ghost use Rattle.tree.specs.Trees.{on};
ghost use Rattle.values.specs.Given.{ReadsAll};
ghost use Rattle.expand.specs.Expanding.{expanding, runs_of};
ghost use Rattle.expand.specs.Stating.{stated, asked_in};

use crate::fault::RunFault;
use crate::place::{Placed, place};
use crate::stated::{Stated, read_at, stated_at};
use tables::Table;
use timeline::{Run, is_too_many};
use tree::Tree;
use values::ValueFault;

// Reads each S of the SegmentTimeline in the row.
pub fn read_stated(tree: &Tree, timeline: usize) -> Result<(), ValueFault>
    ensures { ReadsAll (on asked_in tree.now timeline) result }
{
    'rows: for row in tree.children(timeline, b"S") {
        read_at(tree, row)?;
    }
    Ok(())
}

// Fills the table, in place of what it held, with a run for each S of the SegmentTimeline in the row.
// An S that repeats up to the end does so up to the Period's end, which is at offset + period. After a
// refusal the table is empty.
pub fn expand(
    tree: &Tree,
    timeline: usize,
    offset: u64,
    period: u64,
    first: u32,
    runs: &mut Table<Run>,
) -> Result<(), RunFault>
    ensures answer { result ≡ expanding (offset + period) first (capacity runs.old) (on stated tree.now timeline) }
    ensures runs { Filled no_run runs.old (left_after result (runs_of (offset + period) 0 (on stated tree.now timeline))) runs.new }
    ensures fair { OnOk result (fair_runs first (held runs.new) ≡ true) }
{
    runs.clear();
    let until = u128::from(offset) + u128::from(period);
    let answer = fill(tree, timeline, until, first, runs);
    if answer.is_err() {
        runs.clear();
    }
    answer
}

// Puts a run for each S into the empty table.
fn fill(
    tree: &Tree,
    timeline: usize,
    until: u128,
    first: u32,
    runs: &mut Table<Run>,
) -> Result<(), RunFault>
    requires { held runs.old ≡ [] }
    ensures answer { result ≡ expanding until first (capacity runs.old) (on stated tree.now timeline) }
    ensures runs { OnOk result (held runs.new ≡ runs_of until 0 (on stated tree.now timeline)) }
    ensures fair { OnOk result (fair_runs first (held runs.new) ≡ true) }
    ensures kept { Kept runs.old runs.new }
{
    // From where on the next S may stand: nowhere behind one that repeats up to the end.
    let mut free = Some(0);
    let mut total = 0;
    // Not handed on by `?` at once: that a later S is misplaced comes before a full table.
    let mut pushed = Ok(());
    'rows: for row in tree.children(timeline, b"S") {
        let from = free.ok_or(RunFault::Misplaced)?;
        let stated = stated_at(tree, row);
        let placed = place(stated, from, until)?;
        pushed = runs.push(run_of(stated, placed));
        free = (!stated.is_endless()).then_some(placed.end);
        total += placed.count;
    }
    if total == 0 {
        return Err(RunFault::Misplaced);
    }
    pushed?;
    if is_too_many(first, total) {
        return Err(RunFault::TooMany);
    }
    Ok(())
}

// The run of an S, its count cut to what the field holds.
fn run_of(stated: Stated, placed: Placed) -> Run
    ensures { result ≡ record { start = placed.start; length = stated.length; count = min placed.count 4294967295 } }
{
    Run {
        start: placed.start,
        length: stated.length,
        count: placed.count.min(u64::from(u32::MAX)) as u32,
    }
}
