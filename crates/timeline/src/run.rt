// The rows that a written timeline is made from.
ghost use Rattle.std.specs.Prelude.{◌≡◌, ℕ, ◌+◌, ◌-◌, ◌*◌, ◌^◌, ◌<◌, ◌≤◌, min};
ghost use Rattle.timeline.specs.Runs.{no_run, nth_of, run_end, run_list, fair_run};
ghost use Rattle.timeline.specs.Segments.{ended_by};

use crate::limits::LATEST_END;
use crate::segment::Segment;
use tables::Row;

// A number of segments of one length, which lie end to end from a start.
#[derive(Clone, Copy, Debug, Default, PartialEq, Eq)]
pub struct Run {
    pub start: u64,
    pub length: u64,
    pub count: u32,
}

impl Run {
    // Where the run ends, or 2^64 - 1 if that is after it.
    pub fn end(&self) -> u64
        ensures { result ≡ min (run_end self.now) (2 ^ 64 - 1) }
    {
        self.start
            .saturating_add(u64::from(self.count).saturating_mul(self.length))
    }

    // Whether the run keeps the rules, after one that ends at `from`.
    pub(crate) fn is_fair(&self, from: u64) -> bool
        ensures { result ≡ fair_run from self.now }
    {
        self.count >= 1 && self.length >= 1 && self.start >= from && self.end() <= LATEST_END
    }

    // The segment at a place of the run, whose first segment has the number.
    pub(crate) fn nth(&self, number: u32, place: u32) -> Segment
        requires number { number + place < 2 ^ 32 }
        requires start { self.now.start + place * self.now.length < 2 ^ 64 }
        ensures { result ≡ nth_of number self.now place }
    {
        Segment {
            number: number + place,
            start: self.start + u64::from(place) * self.length,
            length: self.length,
        }
    }

    // How many segments of the run have ended by the tick.
    pub(crate) fn ended(&self, tick: u64) -> u32
        requires { 1 ≤ self.now.length }
        ensures { (number : ℕ) → result ≡ ended_by (run_list number self.now) tick }
    {
        let lengths = tick.saturating_sub(self.start) / self.length;
        // The count by `as`, which keeps its bound for the proof: `from` does not.
        lengths.min(self.count as u64) as u32
    }
}

impl Row for Run {
    ghost zero = { no_run };

    fn zeroed() -> Run {
        Run::default()
    }
}
