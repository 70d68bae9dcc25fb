// Reading and check, one after the other.
ghost use Rattle.std.specs.Prelude.{◌≡◌};
ghost use Rattle.tables.specs.Leaving.{Filled};
ghost use Rattle.reader.specs.Outcomes.{Tabled};
ghost use Rattle.rules.specs.Findings.{no_finding};
ghost use Rattle.listing.specs.Surveys.{surveyed_into, listed_into};

use crate::fault::ListFault;
use reader::read;
use rules::{Finding, check};
use tables::{ManifestRows, Table};
use tree::Tree;

// Reads the manifest into rows and lists which rules it breaks where. What the tables held before is
// given up. After a refusal by reading they hold no rows; after one by check the findings hold none.
pub fn survey(
    manifest: &[u8],
    rows: &mut ManifestRows,
    findings: &mut Table<Finding>,
) -> Result<(), ListFault>
    ensures answer { result ≡ surveyed_into manifest.now rows.old findings.old }
    ensures tables { Tabled manifest.now rows.old rows.new }
    ensures findings { Filled no_finding findings.old (listed_into manifest.now rows.old findings.old) findings.new }
{
    findings.clear();
    read(manifest, rows)?;
    check(&Tree::of(manifest, rows), findings)?;
    Ok(())
}
