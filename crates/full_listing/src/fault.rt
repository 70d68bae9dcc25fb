// The refusals that end a listing before its first other line.
ghost use Rattle.std.specs.Prelude.{◌≡◌};
ghost use Rattle.full_listing.specs.Numbers.{number};
ghost use Rattle.full_listing.specs.declared.fault.ListFault.TheVariants.{Survey, Resolve};

use resolve::ResolveFault;

// Why a manifest is not listed: the refusal of the step that refused it, whole.
#[derive(Clone, Copy)]
pub enum ListFault {
    // By reading or check.
    Survey(listing::ListFault),
    Resolve(ResolveFault),
}

// By hand, so that a clause can name what `?` makes.
impl From<listing::ListFault> for ListFault {
    ghost from_gives = { λ e r. r ≡ Survey e };

    fn from(e: listing::ListFault) -> ListFault {
        ListFault::Survey(e)
    }
}

// By hand, so that a clause can name what `?` makes.
impl From<ResolveFault> for ListFault {
    ghost from_gives = { λ e r. r ≡ Resolve e };

    fn from(e: ResolveFault) -> ListFault {
        ListFault::Resolve(e)
    }
}

impl ListFault {
    // The number by which the refusal is known, whichever step refused.
    pub fn number(self) -> u8
        ensures { result ≡ number self }
    {
        match self {
            ListFault::Survey(fault) => fault.number(),
            ListFault::Resolve(fault) => fault.number(),
        }
    }
}
