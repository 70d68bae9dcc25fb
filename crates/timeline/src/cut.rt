// A timeline ended at a tick.
ghost use Rattle.timeline.specs.Laws.Cuts.{sound_cut};
ghost use Rattle.timeline.specs.Layers.{cut_off};

use crate::fault::NoSuchPlace;
use crate::segment::Segment;
use crate::timeline::Timeline;

// The segments below that start before `at`, each ended there if it ends later.
#[derive(Clone, Copy)]
pub struct Cut<T> {
    pub below: T,
    pub at: u64,
}

impl<T: Timeline> Timeline for Cut<T> {
    ghost segments = { λ s. cut_off s.at (T.Timeline.segments s.below) };

    ghost sound = { λ s. sound_cut s.at (T.Timeline.segments s.below) (T.Timeline.sound s.below) };

    fn count(&self) -> u32 {
        self.below.within(0, self.at)
    }

    fn segment(&self, place: u32) -> Result<Segment, NoSuchPlace> {
        self.below
            .segment(place)
            .and_then(|segment| segment.cut_at(self.at))
    }

    fn ended(&self, tick: u64) -> u32 {
        if tick < self.at {
            self.below.ended(tick)
        } else {
            self.count()
        }
    }

    fn within(&self, from: u64, to: u64) -> u32 {
        if from < self.at {
            self.below.within(from, to.min(self.at))
        } else {
            0
        }
    }

    fn nth_after(&self, from: u64, nth: u32) -> Result<Segment, NoSuchPlace> {
        if from < self.at {
            self.below
                .nth_after(from, nth)
                .and_then(|segment| segment.cut_at(self.at))
        } else {
            Err(NoSuchPlace)
        }
    }
}
