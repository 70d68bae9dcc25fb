// When Periods start and how long they last.
#![tactic(auto)]

ghost use Rattle.std.specs.Prelude.{◌≡◌, ◌+◌, ◌^◌, ◌<◌, ◌≤◌, length, take, IfSome, if◌then◌else◌, None, OnSome, nat_lt};
ghost use Rattle.tree.specs.Trees.{on, value_in};
ghost use Rattle.values.specs.Duration.{duration_of};
ghost use Rattle.values.specs.Given.{ReadsAll, present};
ghost use Rattle.periods.specs.Starts.{plus, periods, start_of, end_of, length_of, asked_of, asked_by};

use tree::Tree;
use values::{ValueFault, duration_if};

// Reads each start and duration of the Periods up to the one behind the position.
pub fn read_periods(tree: &Tree, position: usize) -> Result<(), ValueFault>
    ensures { ReadsAll (on asked_by tree.now (take (position + 2) (on periods tree.now))) result }
{
    'periods: for row in tree.children(0, b"Period").take(position.saturating_add(2)) {
        read_period(tree, row)?;
    }
    Ok(())
}

// Reads the start and the duration of the element in the row.
fn read_period(tree: &Tree, row: usize) -> Result<(), ValueFault>
    ensures { ReadsAll (on asked_of tree.now row) result }
{
    duration_if(tree.attribute(row, b"start"))?;
    duration_if(tree.attribute(row, b"duration"))?;
    Ok(())
}

// The milliseconds from the start of the Period at the position to its end; none where there is no
// such Period, a start is wanting, or the end lies before the start.
pub fn length_of(tree: &Tree, position: usize) -> Option<u64>
    ensures length { result ≡ on length_of tree.now position }
    ensures small { IfSome result (λ ms. ms ≤ 100000000000) }
{
    let start = start_of(tree, position)?;
    let end = end_of(tree, position)?;
    let ms = end.checked_sub(start)?;
    Some(ms as u64)
}

// Where the Period at the position starts; none where there is no such Period, or nothing says it.
fn start_of(tree: &Tree, position: usize) -> Option<u128>
    ensures start { result ≡ (if nat_lt position (length (on periods tree.now)) then on start_of tree.now position else None) }
    ensures within { OnSome result (position < length tree.now.elements.now) }
{
    let mut left = tree.children(0, b"Period");
    let mut following = Some(0);
    'periods: for _ in 0..position {
        let before = left.next()?;
        let start = stated(tree, before, b"start").or(following);
        following = sum(start, stated(tree, before, b"duration"));
    }
    let row = left.next()?;
    stated(tree, row, b"start").or(following)
}

// Where the Period at the position ends: where the next one starts, and the last one with the
// presentation.
fn end_of(tree: &Tree, position: usize) -> Option<u128>
    requires { position + 1 < 2 ^ 64 }
    ensures { result ≡ on end_of tree.now position }
{
    match tree.nth_child(0, b"Period", position + 1) {
        Some(_) => start_of(tree, position + 1),
        None => stated(tree, 0, b"mediaPresentationDuration"),
    }
}

// The milliseconds of the duration that an attribute of the element in the row is.
fn stated(tree: &Tree, row: usize, name: &[u8]) -> Option<u128>
    ensures value { result ≡ present duration_of (value_in tree.now row name.now) }
    ensures small { IfSome result (λ ms. ms ≤ 100000000000) }
{
    duration_if(tree.attribute(row, name))
        .ok()
        .flatten()
        .map(u128::from)
}

// The sum of two numbers that are both there.
fn sum(a: Option<u128>, b: Option<u128>) -> Option<u128>
    requires a { IfSome a (λ n. n < 2 ^ 127) }
    requires b { IfSome b (λ n. n < 2 ^ 127) }
    ensures { result ≡ plus a b }
{
    Some(a? + b?)
}
