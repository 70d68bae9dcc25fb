// The calls of a head.
ghost use Rattle.std.specs.Prelude.{◌≡◌};
ghost use Rattle.head.specs.Heads.{sought, standing, onward, backward, found, reply, moved, Seeks, PutsAddress};
ghost use Rattle.head.specs.Sequences.{output_of, left_at, Obeys};

use super::Head;
use crate::fault::HeadFault;
use crate::step::Call;
use output::Mark;
use timeline::{Addressed, Timeline};

// The latest time to seek, in milliseconds. The longest duration is another limit, of the same size.
const LATEST: u64 = 100_000_000_000;

// The finest timescale, in ticks per second.
pub const FINEST: u32 = 10_000_000;

impl Head {
    // Goes to the segment that covers the time.
    pub fn seek<T: Timeline>(&mut self, timeline: &T, ms: u64) -> Result<(), HeadFault>
        ensures answer { result ≡ reply (sought (T.Timeline.segments timeline.now) self.old.timescale ms) }
        ensures head { self.new ≡ moved self.old (sought (T.Timeline.segments timeline.now) self.old.timescale ms) }
        ensures law { Seeks (T.Timeline.segments timeline.now) self.old.timescale ms self.new.place result }
    {
        if ms > LATEST || self.timescale < 1 || self.timescale > FINEST {
            return Err(HeadFault::OutOfRange);
        }
        let tick = ms * u64::from(self.timescale) / 1000;
        match timeline.within(tick, tick + 1) {
            0 => Err(HeadFault::NoneCovers),
            1 => {
                self.place = Some(timeline.ended(tick));
                Ok(())
            }
            _ => Err(HeadFault::TwoCover),
        }
    }

    // Goes to the next place.
    pub fn on<T: Timeline>(&mut self, timeline: &T) -> Result<(), HeadFault>
        ensures answer { result ≡ reply (onward (T.Timeline.segments timeline.now) self.old.place) }
        ensures head { self.new ≡ moved self.old (onward (T.Timeline.segments timeline.now) self.old.place) }
    {
        let place = self.here(timeline)?;
        if place + 1 < timeline.count() {
            self.place = Some(place + 1);
            Ok(())
        } else {
            Err(HeadFault::NoNeighbour)
        }
    }

    // Goes to the previous place.
    pub fn back<T: Timeline>(&mut self, timeline: &T) -> Result<(), HeadFault>
        ensures answer { result ≡ reply (backward (T.Timeline.segments timeline.now) self.old.place) }
        ensures head { self.new ≡ moved self.old (backward (T.Timeline.segments timeline.now) self.old.place) }
    {
        let place = self.here(timeline)?;
        let before = place.checked_sub(1).ok_or(HeadFault::NoNeighbour)?;
        self.place = Some(before);
        Ok(())
    }

    // Puts the address of the head's place behind the mark.
    pub fn address<T: Addressed>(
        &self,
        timeline: &T,
        bytes: &mut [u8],
        mark: &mut Mark,
    ) -> Result<(), HeadFault>
        ensures { PutsAddress (T.Timeline.segments timeline.now) (T.Addressed.address timeline.now) self.now.place bytes.old mark.old.used bytes.new mark.new.used result }
    {
        let place = self.here(timeline)?;
        timeline.write_address(place, bytes, mark)?;
        Ok(())
    }

    // Does what the call says.
    pub fn obey<T: Addressed>(
        &mut self,
        timeline: &T,
        call: Call,
        bytes: &mut [u8],
        mark: &mut Mark,
    ) -> Result<(), HeadFault>
        ensures timescale { self.new.timescale ≡ self.old.timescale }
        ensures place { self.new.place ≡ left_at (T.Timeline.segments timeline.now) self.old.timescale self.old.place call }
        ensures obeys { Obeys (T.Timeline.segments timeline.now) (T.Addressed.address timeline.now) self.old.timescale self.old.place call result self.new.place (output_of bytes.old mark.old.used) (output_of bytes.new mark.new.used) }
    {
        match call {
            Call::Seek(ms) => self.seek(timeline, ms),
            Call::On => self.on(timeline),
            Call::Back => self.back(timeline),
            Call::Address => self.address(timeline, bytes, mark),
        }
    }

    // The place where the head stands, if the timeline has it.
    fn here<T: Timeline>(&self, timeline: &T) -> Result<u32, HeadFault>
        ensures { found result ≡ standing (T.Timeline.segments timeline.now) self.now.place }
    {
        self.place
            .filter(|place| *place < timeline.count())
            .ok_or(HeadFault::Nowhere)
    }
}
