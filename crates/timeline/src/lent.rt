// A timeline that is lent: what stands behind a reference, for a layer over one that the caller keeps.
use crate::fault::NoSuchPlace;
use crate::segment::Segment;
use crate::timeline::Timeline;

impl<'a, T: Timeline> Timeline for &'a T {
    ghost segments = { λ s. T.Timeline.segments s.now };

    ghost sound = { λ s. T.Timeline.sound s.now };

    fn count(&self) -> u32 {
        T::count(self)
    }

    fn segment(&self, place: u32) -> Result<Segment, NoSuchPlace> {
        T::segment(self, place)
    }

    fn ended(&self, tick: u64) -> u32 {
        T::ended(self, tick)
    }

    fn within(&self, from: u64, to: u64) -> u32 {
        T::within(self, from, to)
    }

    fn nth_after(&self, from: u64, nth: u32) -> Result<Segment, NoSuchPlace> {
        T::nth_after(self, from, nth)
    }
}
