// Why a manifest has no timeline.
ghost use Rattle.std.specs.Prelude.{◌≡◌};
ghost use Rattle.player.specs.Numbers.{number};
ghost use Rattle.player.specs.declared.fault.OpenFault.TheVariants.{Read, Resolve};

use reader::ReadFault;
use resolve::ResolveFault;

// The refusal of the step that refused it, whole.
#[derive(Clone, Copy, Debug, PartialEq, Eq)]
pub enum OpenFault {
    Read(ReadFault),
    Resolve(ResolveFault),
}

// By hand, so that a clause can name what `?` makes.
impl From<ReadFault> for OpenFault {
    ghost from_gives = { λ e r. r ≡ Read e };

    fn from(fault: ReadFault) -> OpenFault {
        OpenFault::Read(fault)
    }
}

// By hand, so that a clause can name what `?` makes.
impl From<ResolveFault> for OpenFault {
    ghost from_gives = { λ e r. r ≡ Resolve e };

    fn from(fault: ResolveFault) -> OpenFault {
        OpenFault::Resolve(fault)
    }
}

impl OpenFault {
    // The number by which the refusal is known, whichever step refused.
    pub fn number(self) -> u8
        ensures { result ≡ number self }
    {
        match self {
            OpenFault::Read(fault) => fault.number(),
            OpenFault::Resolve(fault) => fault.number(),
        }
    }
}
