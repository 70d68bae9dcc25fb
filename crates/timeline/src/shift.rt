// A timeline moved to begin earlier.
ghost use Rattle.timeline.specs.Laws.Shifts.{sound_shifted};
ghost use Rattle.timeline.specs.Layers.{shifted};

use crate::fault::NoSuchPlace;
use crate::segment::Segment;
use crate::timeline::Timeline;

// The segments below that end after `by`, with `by` taken from their starts and ends. A start goes no lower than 0.
#[derive(Clone, Copy)]
pub struct Shift<T> {
    pub below: T,
    pub by: u64,
}

impl<T: Timeline> Timeline for Shift<T> {
    ghost segments = { λ s. shifted s.by (T.Timeline.segments s.below) };

    ghost sound = { λ s. sound_shifted s.by (T.Timeline.segments s.below) (T.Timeline.sound s.below) };

    fn count(&self) -> u32 {
        self.below.within(self.by, u64::MAX)
    }

    fn segment(&self, place: u32) -> Result<Segment, NoSuchPlace> {
        self.below
            .nth_after(self.by, place)
            .map(|segment| segment.earlier(self.by))
    }

    fn ended(&self, tick: u64) -> u32 {
        let left = self.below.within(self.by.saturating_add(tick), u64::MAX);
        self.count().saturating_sub(left)
    }

    fn within(&self, from: u64, to: u64) -> u32 {
        if to == 0 {
            0
        } else {
            let first = self.by.saturating_add(from);
            let last = self.by.saturating_add(to);
            self.below.within(first, last)
        }
    }

    fn nth_after(&self, from: u64, nth: u32) -> Result<Segment, NoSuchPlace> {
        self.below
            .nth_after(self.by.saturating_add(from), nth)
            .map(|segment| segment.earlier(self.by))
    }
}
