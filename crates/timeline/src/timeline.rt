// What every timeline tells.
ghost use Rattle.std.specs.Prelude.{◌≡◌, List, length};
ghost use Rattle.timeline.specs.declared.segment.Segment.{Segment};
ghost use Rattle.timeline.specs.Segments.{Sound, told, ended_by, after, within_of, over_by, under_way};

use crate::fault::NoSuchPlace;
use crate::segment::Segment;

// Whether a segment is told that has ended by the tick.
fn is_over(told: Result<Segment, NoSuchPlace>, tick: u64) -> bool
    ensures { result ≡ over_by tick told }
{
    told.is_ok_and(|segment| segment.start <= tick && segment.length <= tick - segment.start)
}

// Whether a segment is told that starts before the tick.
pub(crate) fn is_under_way(told: Result<Segment, NoSuchPlace>, tick: u64) -> bool
    ensures { result ≡ under_way tick told }
{
    told.is_ok_and(|segment| segment.start < tick)
}

// A list of segments. A place is a position in the list, from 0. Telling leaves the timeline as it is.
pub trait Timeline {
    ghost segments: { Self → List Segment };

    // The limits and the order of its list, which each `impl` proves.
    ghost sound: { (t : Self) → Sound (segments t) };

    fn count(&self) -> u32
        ensures { result ≡ length (segments self.now) };

    fn segment(&self, place: u32) -> Result<Segment, NoSuchPlace>
        ensures { result ≡ told (segments self.now) place };

    // How many segments have ended by the tick: the place of the first that has not.
    fn ended(&self, tick: u64) -> u32
        ensures { result ≡ ended_by (segments self.now) tick }
    {
        // By hand, since the library searches slices alone.
        let mut low = 0;
        let mut high = self.count();
        while low < high {
            let middle = low + (high - low) / 2;
            if is_over(self.segment(middle), tick) {
                low = middle + 1;
            } else {
                high = middle;
            }
        }
        low
    }

    // How many segments end after `from` and start before `to`.
    fn within(&self, from: u64, to: u64) -> u32
        ensures { result ≡ within_of (segments self.now) from to }
    {
        let first = self.ended(from);
        let last = self.ended(to);
        if is_under_way(self.segment(last), to) {
            (last + 1).saturating_sub(first)
        } else {
            last.saturating_sub(first)
        }
    }

    // The nth, from 0, of the segments that end after `from`.
    fn nth_after(&self, from: u64, nth: u32) -> Result<Segment, NoSuchPlace>
        ensures { result ≡ told (after from (segments self.now)) nth }
    {
        self.segment(self.ended(from).saturating_add(nth))
    }
}
