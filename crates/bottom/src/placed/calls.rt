// What a bottom timeline with addresses tells and writes.
ghost use Rattle.std.specs.Prelude.{◌≡◌, true, false, MatchResult};
ghost use Rattle.address.specs.Joining.{address_of};
ghost use Rattle.template.specs.Reading.{broken};
ghost use Rattle.timeline.specs.Segments.{blank};
ghost use Rattle.bottom.specs.Placing.{unless, sound_unless, address_at, as_address_fault};

use super::Placed;
use address::{ExpandFault, Parts, put_address};
use output::Mark;
use template::is_broken;
use timeline::{AddressFault, Addressed, NoSuchPlace, Segment, Timeline};

// The refusal of a put, as one of an address: a broken template has no places. No `From`, since both types are other
// crates'.
fn as_address_fault(fault: ExpandFault) -> AddressFault
    ensures { result ≡ as_address_fault fault }
{
    match fault {
        ExpandFault::NoRoom(full) => AddressFault::NoRoom(full),
        ExpandFault::Broken => AddressFault::NoSuchPlace(NoSuchPlace),
    }
}

impl<'a, T: Timeline> Placed<'a, T> {
    // The timeline below with these parts of its addresses.
    pub fn new(below: T, parts: Parts<'a>) -> Placed<'a, T>
        ensures list { unless result.torn (T.Timeline.segments result.below) ≡ unless (broken parts.entry.template.now) (T.Timeline.segments below) }
        ensures below { result.below ≡ below }
        ensures parts { result.parts ≡ parts.entry }
    {
        let torn = is_broken(parts.template);
        Placed { below, parts, torn }
    }

    // The timeline below, if its segments have addresses.
    fn whole(&self) -> Result<&T, NoSuchPlace>
        ensures { MatchResult result (λ below. (self.now.torn ≡ false) × (below.now ≡ self.now.below)) (λ _. self.now.torn ≡ true) }
    {
        if self.torn {
            Err(NoSuchPlace)
        } else {
            Ok(&self.below)
        }
    }
}

impl<'a, T: Timeline> Timeline for Placed<'a, T> {
    ghost segments = { λ p. unless p.torn (T.Timeline.segments p.below) };

    ghost sound = { λ p. sound_unless p.torn (T.Timeline.segments p.below) (T.Timeline.sound p.below) };

    fn count(&self) -> u32 {
        self.whole().map_or(0, |below| below.count())
    }

    fn segment(&self, place: u32) -> Result<Segment, NoSuchPlace> {
        self.whole()?.segment(place)
    }

    fn ended(&self, tick: u64) -> u32 {
        self.whole().map_or(0, |below| below.ended(tick))
    }

    fn within(&self, from: u64, to: u64) -> u32 {
        self.whole().map_or(0, |below| below.within(from, to))
    }

    fn nth_after(&self, from: u64, nth: u32) -> Result<Segment, NoSuchPlace> {
        self.whole()?.nth_after(from, nth)
    }
}

impl<'a, T: Timeline> Addressed for Placed<'a, T> {
    ghost address = { λ p place. address_at p.parts (T.Timeline.segments p.below) place };

    fn write_address(
        &self,
        place: u32,
        bytes: &mut [u8],
        mark: &mut Mark,
    ) -> Result<(), AddressFault> {
        let segment = self.segment(place)?;
        put_address(
            bytes,
            mark,
            &self.parts,
            u64::from(segment.number),
            segment.start,
        )
        .map_err(as_address_fault)
    }
}
