// The refusals that end a listing before its first finding.
ghost use Rattle.std.specs.Prelude.{◌≡◌};
ghost use Rattle.listing.specs.Numbers.{number};
ghost use Rattle.listing.specs.declared.fault.ListFault.TheVariants.{Read, Check};

use reader::ReadFault;
use rules::CheckFault;

// Why a manifest is not listed: the refusal of the step that refused it, whole.
#[derive(Clone, Copy)]
pub enum ListFault {
    Read(ReadFault),
    Check(CheckFault),
}

// By hand, so that a clause can name what `?` makes.
impl From<ReadFault> for ListFault {
    ghost from_gives = { λ e r. r ≡ Read e };

    fn from(e: ReadFault) -> ListFault {
        ListFault::Read(e)
    }
}

// By hand, so that a clause can name what `?` makes.
impl From<CheckFault> for ListFault {
    ghost from_gives = { λ e r. r ≡ Check e };

    fn from(e: CheckFault) -> ListFault {
        ListFault::Check(e)
    }
}

impl ListFault {
    // The number by which the refusal is known, whichever step refused.
    pub fn number(self) -> u8
        ensures { result ≡ number self }
    {
        match self {
            ListFault::Read(fault) => fault.number(),
            ListFault::Check(fault) => fault.number(),
        }
    }
}
