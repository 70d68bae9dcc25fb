// A manifest read and resolved, and what is then done with its timeline.
ghost use Rattle.std.specs.Prelude.{◌≡◌, min, length, IfOk, Ok, Err, MatchResult};
ghost use Rattle.tables.specs.Rows.{held};
ghost use Rattle.head.specs.Sequences.{output_of, Replays};
ghost use Rattle.resolve.specs.Values.{Values, values_of, Whole, timeline_by, address_by};
ghost use Rattle.player.specs.Opening.{opened_into, runs_into, Left, SumsOf};

use crate::fault::OpenFault;
use chosen::Positions;
use head::{Call, Step, replay};
use output::Mark;
use presentation::{Plan, Sums, account, lay_out};
use reader::read;
use resolve::resolve;
use tables::{ManifestRows, Table};
use timeline::Run;
use tree::Tree;

// Reads the manifest and resolves it for the positions. What the tables held before is given up; the runs
// are those of the S elements, none after a refusal.
pub fn open<'m>(
    manifest: &'m [u8],
    at: Positions,
    rows: &mut ManifestRows,
    runs: &mut Table<Run>,
) -> Result<Plan<'m>, OpenFault>
    ensures answer { MatchResult result
        (λ p. opened_into manifest.now at rows.old runs.old ≡ Ok (values_of p))
        (λ e. opened_into manifest.now at rows.old runs.old ≡ Err e) }
    ensures left { Left manifest.now at rows.old runs.old rows.new runs.new }
    ensures whole { IfOk result (λ p. Whole p (held runs.new)) }
{
    runs.clear();
    read(manifest, rows)?;
    Ok(resolve(&Tree::of(manifest, rows), at, runs)?)
}

// Has a new head perform the calls on the timeline of the plan and its runs, which stand in the table.
fn perform<'a>(
    plan: Plan<'a>,
    runs: &'a Table<Run>,
    calls: &[Call],
    steps: &mut [Step],
    bytes: &mut [u8],
    mark: &mut Mark,
) -> usize
    requires { Whole plan (held runs.now) }
    ensures count { result ≡ min (length calls.now) (length steps.old) }
    ensures law { Replays (timeline_by (values_of plan.entry) (held runs.now)) (address_by (values_of plan.entry) (held runs.now)) plan.entry.timescale calls.now steps.old steps.new (output_of bytes.old mark.old.used) (output_of bytes.new mark.new.used) result }
{
    let timeline = lay_out(plan, runs.rows());
    replay(&timeline, plan.timescale, calls, steps, bytes, mark)
}

// Opens the manifest and has a new head perform the calls on its timeline, as far as `steps` has rows,
// with a step written for each. Answers how many were performed.
pub fn screen(
    manifest: &[u8],
    at: Positions,
    rows: &mut ManifestRows,
    runs: &mut Table<Run>,
    calls: &[Call],
    steps: &mut [Step],
    bytes: &mut [u8],
    mark: &mut Mark,
) -> Result<usize, OpenFault>
    ensures answer { MatchResult result
        (λ n. (v : Values) × (opened_into manifest.now at rows.old runs.old ≡ Ok v) × (n ≡ min (length calls.now) (length steps.old)) × Replays (timeline_by v (runs_into manifest.now at rows.old runs.old)) (address_by v (runs_into manifest.now at rows.old runs.old)) v.timescale calls.now steps.old steps.new (output_of bytes.old mark.old.used) (output_of bytes.new mark.new.used) n)
        (λ e. (opened_into manifest.now at rows.old runs.old ≡ Err e) × (steps.new ≡ steps.old) × (bytes.new ≡ bytes.old) × (mark.new ≡ mark.old)) }
    ensures left { Left manifest.now at rows.old runs.old rows.new runs.new }
{
    let plan = open(manifest, at, rows, runs)?;
    Ok(perform(plan, runs, calls, steps, bytes, mark))
}

// Opens the manifest and sums up what its timeline lists and leaves out.
pub fn tally(
    manifest: &[u8],
    at: Positions,
    rows: &mut ManifestRows,
    runs: &mut Table<Run>,
) -> Result<Sums, OpenFault>
    ensures answer { MatchResult result
        (λ s. (v : Values) × (opened_into manifest.now at rows.old runs.old ≡ Ok v) × SumsOf v (runs_into manifest.now at rows.old runs.old) s)
        (λ e. opened_into manifest.now at rows.old runs.old ≡ Err e) }
    ensures left { Left manifest.now at rows.old runs.old rows.new runs.new }
{
    let plan = open(manifest, at, rows, runs)?;
    Ok(account(&plan, runs.rows()))
}
