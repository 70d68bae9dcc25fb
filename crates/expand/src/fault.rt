// Why S elements are not expanded.
ghost use Rattle.std.specs.Prelude.{◌≡◌};
ghost use Rattle.expand.specs.Faults.{number};
ghost use Rattle.expand.specs.declared.fault.RunFault.TheVariants.{RunsFull};

use tables::Full;

#[derive(Clone, Copy, Debug, PartialEq, Eq)]
pub enum RunFault {
    // There is no S, or one that cannot stand where it does.
    Misplaced,
    // There are more S than rows for their runs.
    RunsFull,
    // The count of segments or the last number is over its limit.
    TooMany,
}

// The clauses name the refusal that a `?` makes, so this is written out.
impl From<Full> for RunFault {
    ghost from_gives = { λ _ r. r ≡ RunsFull };

    fn from(_full: Full) -> RunFault {
        Self::RunsFull
    }
}

impl RunFault {
    // The number by which the refusal is known.
    // A match and no discriminants, so that the proof sees a wrong number.
    pub fn number(self) -> u8
        ensures { result ≡ number self }
    {
        match self {
            RunFault::Misplaced => 36,
            RunFault::RunsFull => 37,
            RunFault::TooMany => 38,
        }
    }
}
