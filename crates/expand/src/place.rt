// Where an S stands behind another, and how many segments it gives.
ghost use Rattle.std.specs.Prelude.{◌≡◌, ◌+◌, ◌<◌, ◌≤◌, true, false, [], IfOk, MatchResult};
ghost use Rattle.timeline.specs.Runs.{run_end};
ghost use Rattle.expand.specs.Expanding.{count_of, start_of, run_of, misplaced_at};
ghost use Rattle.expand.specs.declared.fault.RunFault.TheVariants.{Misplaced};

use crate::fault::RunFault;
use crate::stated::Stated;
use timeline::LATEST_END;

// The run of an S: its start, how many segments it has, and its end.
#[derive(Clone, Copy)]
pub(crate) struct Placed {
    pub(crate) start: u64,
    pub(crate) count: u64,
    pub(crate) end: u64,
}

// The run of an S behind one that ends at `from`, if it can stand there.
pub(crate) fn place(stated: Stated, from: u64, until: u128) -> Result<Placed, RunFault>
    ensures answer { MatchResult result
        (λ _. misplaced_at until from stated [] ≡ false)
        (λ fault. (fault ≡ Misplaced) × (misplaced_at until from stated [] ≡ true)) }
    ensures start { IfOk result (λ placed. placed.start ≡ start_of from stated) }
    ensures count { IfOk result (λ placed. placed.count ≡ (run_of until from stated).count) }
    ensures end { IfOk result (λ placed. placed.end ≡ run_end (run_of until from stated)) }
    ensures within { IfOk result (λ placed. (0 < placed.count) × (from + placed.count ≤ placed.end) × (placed.end ≤ 9007199254740992)) }
{
    let start = stated.time.unwrap_or(from);
    if stated.length == 0 || start < from {
        return Err(RunFault::Misplaced);
    }
    let count = count_of(stated, start, until);
    let lengths = count.saturating_mul(u128::from(stated.length));
    let end = u128::from(start).saturating_add(lengths);
    if end > u128::from(LATEST_END) {
        return Err(RunFault::Misplaced);
    }
    Ok(Placed {
        start,
        count: count as u64,
        end: end as u64,
    })
}

// How many segments an S gives that starts there.
fn count_of(stated: Stated, start: u64, until: u128) -> u128
    requires { 0 < stated.length }
    ensures { result ≡ count_of until start stated.length stated.repeat }
{
    if !stated.is_endless() {
        return stated.repeat as u128 + 1;
    }
    let left = until.saturating_sub(u128::from(start));
    left.div_ceil(u128::from(stated.length)).max(1)
}
