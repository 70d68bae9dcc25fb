// What an even timeline is made from and tells.
ghost use Rattle.std.specs.Prelude.{◌≡◌};
ghost use Rattle.timeline.specs.Evenly.{even_list};
ghost use Rattle.timeline.specs.Bottoms.{of_even, sound_even};

use super::Even;
use crate::fault::NoSuchPlace;
use crate::limits::{LATEST_END, is_too_many};
use crate::run::Run;
use crate::segment::Segment;
use crate::timeline::Timeline;

// The longest duration.
const LONGEST: u64 = u32::MAX as u64;

impl Even {
    // As many segments as begin within the period, or none where they would pass the limits.
    pub fn new(first: u32, duration: u64, period: u64) -> Even
        ensures { of_even result ≡ even_list first duration period }
    {
        if (1..=LONGEST).contains(&duration) {
            let count = period.div_ceil(duration);
            if !is_too_many(first, count) && count * duration <= LATEST_END {
                let run = Run {
                    start: 0,
                    length: duration,
                    count: count as u32,
                };
                return Even { first, run };
            }
        }
        let none = Run {
            start: 0,
            length: 1,
            count: 0,
        };
        Even {
            first: 0,
            run: none,
        }
    }
}

impl Timeline for Even {
    ghost segments = { of_even };

    ghost sound = { sound_even };

    fn count(&self) -> u32 {
        self.run.count
    }

    fn segment(&self, place: u32) -> Result<Segment, NoSuchPlace> {
        if place < self.run.count {
            Ok(self.run.nth(self.first, place))
        } else {
            Err(NoSuchPlace)
        }
    }

    fn ended(&self, tick: u64) -> u32 {
        self.run.ended(tick)
    }
}
