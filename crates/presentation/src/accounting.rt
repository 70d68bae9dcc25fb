// The sum of what a manifest's timeline lists and leaves out.
ghost use Rattle.std.specs.Prelude.{◌≡◌, ℕ, ◌+◌, ◌-◌, min, max, true};
ghost use Rattle.timeline.specs.Runs.{expanded, fair_from};
ghost use Rattle.presentation.specs.Lists.{bottom_of};
ghost use Rattle.presentation.specs.Sums.{Accounts};

use crate::laid::bottom_of;
use crate::plan::{Kind, Plan};
use crate::sums::Sums;
use template::is_broken;
use timeline::{Run, Timeline};

// The part of the time from a start to an end that lies before the tick.
fn part_before(start: u64, end: u64, tick: u64) -> u64
    ensures { result ≡ min end tick - min start tick }
{
    end.min(tick).saturating_sub(start.min(tick))
}

// The part of it that lies after the tick.
fn part_after(start: u64, end: u64, tick: u64) -> u64
    ensures { result ≡ max end tick - max start tick }
{
    end.max(tick).saturating_sub(start.max(tick))
}

// The sums of the segments of fair runs. Those of one run lie end to end, so their parts make up that of the run.
fn sums_of(runs: &[Run], offset: u64, period: u64) -> Sums
    requires { fair_from 0 runs.now ≡ true }
    ensures { (first : ℕ) → Accounts (expanded first runs.now) offset period result }
{
    let until = offset.saturating_add(period);
    let mut before: u64 = 0;
    let mut after: u64 = 0;
    let mut written: u64 = 0;
    'runs: for run in runs {
        let end = run.end();
        before += part_before(run.start, end, offset);
        after += part_after(run.start, end, until);
        written += end - run.start;
    }
    Sums {
        listed: written - before - after,
        before,
        after,
        written,
    }
}

// The sums of the timeline that the plan and its runs give, by one look at each run.
pub fn account(plan: &Plan, runs: &[Run]) -> Sums
    ensures { Accounts (bottom_of plan.now runs.now) plan.now.offset plan.now.period result }
{
    if is_broken(plan.parts.template) {
        return Sums::default();
    }
    let count = bottom_of(plan, runs).count();
    if count == 0 {
        return Sums::default();
    }
    match plan.kind {
        Kind::Written => sums_of(runs, plan.offset, plan.period),
        Kind::Even(length) => {
            let run = Run {
                start: 0,
                length,
                count,
            };
            sums_of(&[run], plan.offset, plan.period)
        }
    }
}
