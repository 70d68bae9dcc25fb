// The even timeline.
ghost use Rattle.std.specs.Prelude.{◌≡◌, ◌+◌, ◌^◌, ◌<◌, ◌≤◌};
ghost use Rattle.timeline.specs.Runs.{run_end};

use crate::run::Run;

mod calls;

// Segments of one length, end to end: one run, from 0.
#[derive(Clone, Copy)]
pub struct Even {
    first: u32,
    run: Run,
    ghost from: { run.start ≡ 0 },
    ghost few: { run.count < 2 ^ 31 },
    ghost long: { 1 ≤ run.length },
    ghost numbers: { first + run.count ≤ 2 ^ 32 },
    ghost within: { run_end run ≤ 2 ^ 53 },
}
