// What a head refuses.
ghost use Rattle.std.specs.Prelude.{◌≡◌};
ghost use Rattle.head.specs.Refusals.{number, of_address};

use timeline::AddressFault;

#[derive(Clone, Copy, Debug, PartialEq, Eq)]
pub enum HeadFault {
    OutOfRange,
    NoneCovers,
    TwoCover,
    Nowhere,
    NoNeighbour,
    NoRoom,
}

impl HeadFault {
    // A match and no discriminants, so that the proof sees a wrong number.
    pub fn number(self) -> u8
        ensures { result ≡ number self }
    {
        match self {
            HeadFault::OutOfRange => 40,
            HeadFault::NoneCovers => 41,
            HeadFault::TwoCover => 42,
            HeadFault::Nowhere => 43,
            HeadFault::NoNeighbour => 44,
            HeadFault::NoRoom => 45,
        }
    }
}

// A place that the timeline has not is one where no head stands. By hand, so that a clause can name what `?` makes.
impl From<AddressFault> for HeadFault {
    ghost from_gives = { λ e r. r ≡ of_address e };

    fn from(fault: AddressFault) -> HeadFault {
        match fault {
            AddressFault::NoSuchPlace(_) => HeadFault::Nowhere,
            AddressFault::NoRoom(_) => HeadFault::NoRoom,
        }
    }
}
