// A segment of a timeline.
ghost use Rattle.std.specs.Prelude.{◌≡◌, Ok, nat_lt};
ghost use Rattle.timeline.specs.Layers.{earlier, shortened, mapped, only};

use crate::fault::NoSuchPlace;

// A part of the time, in ticks: from its start up to before its end, which is start + length.
#[derive(Clone, Copy, Debug, PartialEq, Eq)]
pub struct Segment {
    pub number: u32,
    pub start: u64,
    pub length: u64,
}

impl Segment {
    // The segment with `by` taken from its start and its end, neither below 0.
    pub(crate) fn earlier(self, by: u64) -> Segment
        ensures { result ≡ earlier by self }
    {
        Segment {
            start: self.start.saturating_sub(by),
            length: self.length.saturating_sub(by.saturating_sub(self.start)),
            ..self
        }
    }

    // The segment ended at the tick, if it starts before.
    pub(crate) fn cut_at(self, at: u64) -> Result<Segment, NoSuchPlace>
        ensures { result ≡ mapped (shortened at) (only (λ s. nat_lt s.start at) (Ok self)) }
    {
        if self.start >= at {
            return Err(NoSuchPlace);
        }
        Ok(Segment {
            length: self.length.min(at - self.start),
            ..self
        })
    }
}
