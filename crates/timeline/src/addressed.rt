// A timeline that has an address for each place.
ghost use Rattle.std.specs.Prelude.{ℕ, ◌+◌, List, length};
ghost use Rattle.timeline.specs.Segments.{ended_by, within_of};
ghost use Rattle.timeline.specs.Addresses.{Addressing};

use crate::cut::Cut;
use crate::fault::{AddressFault, NoSuchPlace};
use crate::shift::Shift;
use crate::timeline::{Timeline, is_under_way};
use output::Mark;

// A timeline whose places have addresses. A place that it does not have leaves the bytes and the mark as they are.
pub trait Addressed: Timeline {
    ghost address: { Self → ℕ → List ℕ };

    // Puts the address of the place behind the mark.
    fn write_address(
        &self,
        place: u32,
        bytes: &mut [u8],
        mark: &mut Mark,
    ) -> Result<(), AddressFault>
        ensures { Addressing
            (length (Self.Timeline.segments self.now)) place (address self.now place)
            bytes.old mark.old.used bytes.new mark.new.used result };

    // Puts the address of the nth, from 0, of the segments that end after `from` and start before `to`.
    fn write_address_within(
        &self,
        from: u64,
        to: u64,
        nth: u32,
        bytes: &mut [u8],
        mark: &mut Mark,
    ) -> Result<(), AddressFault>
        ensures { Addressing
            (within_of (Self.Timeline.segments self.now) from to) nth
            (address self.now (ended_by (Self.Timeline.segments self.now) from + nth))
            bytes.old mark.old.used bytes.new mark.new.used result }
    {
        let place = self.ended(from).saturating_add(nth);
        if !is_under_way(self.segment(place), to) {
            return Err(NoSuchPlace.into());
        }
        self.write_address(place, bytes, mark)
    }
}

impl<T: Addressed> Addressed for Shift<T> {
    ghost address = { λ s place. T.Addressed.address s.below (ended_by (T.Timeline.segments s.below) s.by + place) };

    fn write_address(
        &self,
        place: u32,
        bytes: &mut [u8],
        mark: &mut Mark,
    ) -> Result<(), AddressFault> {
        self.below
            .write_address_within(self.by, u64::MAX, place, bytes, mark)
    }

    fn write_address_within(
        &self,
        from: u64,
        to: u64,
        nth: u32,
        bytes: &mut [u8],
        mark: &mut Mark,
    ) -> Result<(), AddressFault> {
        if to == 0 {
            return Err(NoSuchPlace.into());
        }
        let first = self.by.saturating_add(from);
        let last = self.by.saturating_add(to);
        self.below
            .write_address_within(first, last, nth, bytes, mark)
    }
}

impl<T: Addressed> Addressed for Cut<T> {
    ghost address = { λ s place. T.Addressed.address s.below place };

    fn write_address(
        &self,
        place: u32,
        bytes: &mut [u8],
        mark: &mut Mark,
    ) -> Result<(), AddressFault> {
        self.below
            .write_address_within(0, self.at, place, bytes, mark)
    }

    fn write_address_within(
        &self,
        from: u64,
        to: u64,
        nth: u32,
        bytes: &mut [u8],
        mark: &mut Mark,
    ) -> Result<(), AddressFault> {
        if from >= self.at {
            return Err(NoSuchPlace.into());
        }
        self.below
            .write_address_within(from, to.min(self.at), nth, bytes, mark)
    }
}

impl<'a, T: Addressed> Addressed for &'a T {
    ghost address = { λ s place. T.Addressed.address s.now place };

    fn write_address(
        &self,
        place: u32,
        bytes: &mut [u8],
        mark: &mut Mark,
    ) -> Result<(), AddressFault> {
        T::write_address(self, place, bytes, mark)
    }

    fn write_address_within(
        &self,
        from: u64,
        to: u64,
        nth: u32,
        bytes: &mut [u8],
        mark: &mut Mark,
    ) -> Result<(), AddressFault> {
        T::write_address_within(self, from, to, nth, bytes, mark)
    }
}
