// The written timeline.
ghost use Rattle.std.specs.Prelude.{◌≡◌, true};
ghost use Rattle.timeline.specs.Runs.{many, fair_runs};

use crate::run::Run;

mod calls;

// The segments of the caller's runs, one run after another, with numbers that rise by one over all runs.
#[derive(Clone, Copy)]
pub struct Written<'a> {
    runs: &'a [Run],
    first: u32,
    total: u32,
    ghost sum: { total ≡ many runs.now },
    ghost fair: { fair_runs first runs.now ≡ true },
}
