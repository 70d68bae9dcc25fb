// What a timeline refuses.
ghost use Rattle.std.specs.Prelude.{◌≡◌};
ghost use Rattle.timeline.specs.Refusals.{number, address_number};
ghost use Rattle.timeline.specs.declared.fault.AddressFault.TheVariants.{NoSuchPlace as missing, NoRoom as full};

use output::NoRoom;

// The refusal of a place that is not below the count.
#[derive(Clone, Copy, Debug, PartialEq, Eq)]
pub struct NoSuchPlace;

impl NoSuchPlace {
    pub fn number(self) -> u8
        ensures { result ≡ number self }
    {
        46
    }
}

// Why an address is not written.
#[derive(Clone, Copy, Debug, PartialEq, Eq)]
pub enum AddressFault {
    NoSuchPlace(NoSuchPlace),
    NoRoom(NoRoom),
}

impl AddressFault {
    pub fn number(self) -> u8
        ensures { result ≡ address_number self }
    {
        match self {
            AddressFault::NoSuchPlace(fault) => fault.number(),
            AddressFault::NoRoom(fault) => fault.number(),
        }
    }
}

// By hand, so that a clause can name what `?` and `into` make.
impl From<NoSuchPlace> for AddressFault {
    ghost from_gives = { λ e r. r ≡ missing e };

    fn from(fault: NoSuchPlace) -> AddressFault {
        AddressFault::NoSuchPlace(fault)
    }
}

// By hand, so that a clause can name what `?` makes.
impl From<NoRoom> for AddressFault {
    ghost from_gives = { λ e r. r ≡ full e };

    fn from(fault: NoRoom) -> AddressFault {
        AddressFault::NoRoom(fault)
    }
}
