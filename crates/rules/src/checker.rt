// The walk over the elements that lists what breaks a rule.
ghost use Rattle.std.specs.Prelude.{◌≡◌, ◌<◌, ◌≤◌, ◌++◌, length, MatchResult, OnOk};
ghost use Rattle.tables.specs.Leaving.{Filled, Kept, left_after};
ghost use Rattle.tables.specs.Rows.{held, capacity};
ghost use Rattle.tree.specs.Trees.{on};
ghost use Rattle.rules.specs.Broken.{broken};
ghost use Rattle.rules.specs.Findings.{findings, failing, no_finding};
ghost use Rattle.rules.specs.Laws.{LawOn};
ghost use Rattle.rules.specs.declared.rule.CheckFault.TheVariants.{FindingsFull};

use crate::element::is_broken;
use crate::rule::{CheckFault, Finding, Rule};
use tables::{Full, Table};
use tree::Tree;

// The rules in the order of their numbers. An enum does not list its variants, so they stand here
// once more.
const RULES: [Rule; 9] = [
    Rule::DynamicUnanchored,
    Rule::StaticTimeShift,
    Rule::StaticUnbounded,
    Rule::NoDurationNorUpdate,
    Rule::NoMaxSegmentDuration,
    Rule::DurationAndTimeline,
    Rule::InitializationVaries,
    Rule::MediaBroken,
    Rule::AudioWithoutLanguage,
];

// Lists in the table, in place of what it held, each rule that is broken at an element, by element
// and then by rule. Where they do not all fit, the table is left empty.
pub fn check(tree: &Tree, table: &mut Table<Finding>) -> Result<(), CheckFault>
    ensures answer { MatchResult result
        (λ _. length (on findings tree.now) ≤ capacity table.old)
        (λ fault. (fault ≡ FindingsFull) × (capacity table.old < length (on findings tree.now))) }
    ensures law { OnOk result (LawOn tree.now (held table.new)) }
    ensures left { Filled no_finding table.old (left_after result (on findings tree.now)) table.new }
{
    table.clear();
    'rows: for row in 0..tree.elements.len() {
        if list_at(tree, row, &RULES, table).is_err() {
            table.clear();
            return Err(CheckFault::FindingsFull);
        }
    }
    Ok(())
}

// Lists those of the rules that are broken at the element in the row, as far as the table takes
// them.
fn list_at(tree: &Tree, row: usize, rules: &[Rule], table: &mut Table<Finding>) -> Result<(), Full>
    ensures answer { MatchResult result
        (λ _. held table.new ≡ held table.old ++ failing (on broken tree.now row) row rules.now)
        (λ _. capacity table.old < length (held table.old ++ failing (on broken tree.now row) row rules.now)) }
    ensures kept { Kept table.old table.new }
{
    'rules: for rule in rules {
        if is_broken(tree, row, *rule) {
            table.push(Finding {
                rule: Some(*rule),
                element: row,
            })?;
        }
    }
    Ok(())
}
