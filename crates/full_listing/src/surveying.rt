// Reading, check and resolving, one after the other.
ghost use Rattle.std.specs.Prelude.{◌≡◌, IfSome, IfOk};
ghost use Rattle.tables.specs.Leaving.{Filled};
ghost use Rattle.tables.specs.Rows.{held};
ghost use Rattle.reader.specs.Outcomes.{Tabled};
ghost use Rattle.resolve.specs.Values.{values_of, AddsUp};
ghost use Rattle.rules.specs.Findings.{no_finding};
ghost use Rattle.timeline.specs.Runs.{no_run};
ghost use Rattle.listing.specs.Surveys.{surveyed_into as checked_into, listed_into};
ghost use Rattle.full_listing.specs.Lines.{lines_of};
ghost use Rattle.full_listing.specs.Surveys.{surveyed_into, runs_into, listing_into, meaning_of};

use crate::fault::ListFault;
use chosen::Positions;
use presentation::Plan;
use reader::read;
use resolve::resolve;
use rules::{Finding, check};
use tables::{ManifestRows, Table};
use timeline::Run;
use tree::Tree;

// Reads the manifest into rows and lists which rules it breaks where. After a refusal by reading the
// tables hold no rows; after one by check the findings hold none. It is `listing::survey` once more, so
// that the tree that is checked stands here, where a must-fail edit can spoil it.
fn examine(
    manifest: &[u8],
    rows: &mut ManifestRows,
    findings: &mut Table<Finding>,
) -> Result<(), listing::ListFault>
    ensures answer { result ≡ checked_into manifest.now rows.old findings.old }
    ensures tables { Tabled manifest.now rows.old rows.new }
    ensures findings { Filled no_finding findings.old (listed_into manifest.now rows.old findings.old) findings.new }
{
    findings.clear();
    read(manifest, rows)?;
    check(&Tree::of(manifest, rows), findings)?;
    Ok(())
}

// Reads and checks the manifest and, if no rule is broken, resolves its first Period's first
// Representation. What the tables held before is given up. Without findings and refusals there is a
// plan, and the runs are its runs; otherwise they are none. After a refusal by reading there are no
// rows at all, and after one by check no findings.
pub fn survey<'m>(
    manifest: &'m [u8],
    rows: &mut ManifestRows,
    findings: &mut Table<Finding>,
    runs: &mut Table<Run>,
) -> Result<Option<Plan<'m>>, ListFault>
    ensures answer { meaning_of result ≡ surveyed_into manifest.now rows.old findings.old runs.old }
    ensures lines { lines_of result (held rows.new.elements) (held findings.new) (held runs.new) ≡ listing_into manifest.now rows.old findings.old runs.old }
    ensures sum { IfOk result (λ o. IfSome o (λ p. AddsUp (values_of p) (held runs.new))) }
    ensures tables { Tabled manifest.now rows.old rows.new }
    ensures findings { Filled no_finding findings.old (listed_into manifest.now rows.old findings.old) findings.new }
    ensures runs { Filled no_run runs.old (runs_into manifest.now rows.old findings.old runs.old) runs.new }
{
    runs.clear();
    examine(manifest, rows, findings)?;
    if findings.len() > 0 {
        return Ok(None);
    }
    let plan = resolve(&Tree::of(manifest, rows), Positions::FIRST, runs)?;
    Ok(Some(plan))
}
