// What a written timeline is made from and tells.
ghost use Rattle.std.specs.Prelude.{◌≡◌, true, false, Some, None};
ghost use Rattle.timeline.specs.Runs.{many, fair_runs, written_list};
ghost use Rattle.timeline.specs.Bottoms.{of_written, sound_written};

use super::Written;
use crate::fault::NoSuchPlace;
use crate::limits::is_too_many;
use crate::run::Run;
use crate::segment::Segment;
use crate::timeline::Timeline;

// How many segments the runs have, if they keep the rules.
fn fair_total(first: u32, runs: &[Run]) -> Option<u32>
    ensures { elim result [
      | Some total ↦ (fair_runs first runs.now ≡ true) × (total ≡ many runs.now)
      | None ↦ fair_runs first runs.now ≡ false
    ] }
{
    let mut end: u64 = 0;
    let mut total: u64 = 0;
    for run in runs {
        if !run.is_fair(end) {
            return None;
        }
        end = run.end();
        total += u64::from(run.count);
    }
    if is_too_many(first, total) {
        return None;
    }
    Some(total as u32)
}

impl<'a> Written<'a> {
    // The timeline of the runs, and an empty one where a run, the total or a number is outside the rules.
    pub fn new(first: u32, runs: &'a [Run]) -> Written<'a>
        ensures { of_written result ≡ written_list first runs.now }
    {
        match fair_total(first, runs) {
            Some(total) => Written { runs, first, total },
            None => Written {
                runs: &[],
                first: 0,
                total: 0,
            },
        }
    }
}

impl<'a> Timeline for Written<'a> {
    ghost segments = { of_written };

    ghost sound = { sound_written };

    fn count(&self) -> u32 {
        self.total
    }

    fn segment(&self, place: u32) -> Result<Segment, NoSuchPlace> {
        let mut left = place;
        for run in self.runs {
            if left < run.count {
                return Ok(run.nth(self.first + (place - left), left));
            }
            left -= run.count;
        }
        Err(NoSuchPlace)
    }

    fn ended(&self, tick: u64) -> u32 {
        self.runs.iter().map(|run| run.ended(tick)).sum()
    }
}
