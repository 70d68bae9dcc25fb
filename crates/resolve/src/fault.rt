// Why rows are not resolved.
ghost use Rattle.std.specs.Prelude.{◌≡◌};
ghost use Rattle.resolve.specs.Faults.{number};
ghost use Rattle.resolve.specs.declared.fault.ResolveFault.TheVariants.{Unreadable, Runs};

use expand::RunFault;
use values::ValueFault;

#[derive(Clone, Copy, Debug, PartialEq, Eq)]
pub enum ResolveFault {
    // A conformance rule is broken.
    RuleBroken,
    // The root is no MPD, or it is not static.
    NotStatic,
    // There is no such Period or Representation.
    NotFound,
    // A value cannot be read, or a needed one is absent.
    Unreadable,
    // The Period or the next one is without start, or it would end before it starts.
    NoLength,
    // There are both a duration and a SegmentTimeline, or neither.
    BothOrNeither,
    // The S elements or the even duration do not give a timeline.
    Runs(RunFault),
    // There is no media template, or its addresses cannot be made.
    NoAddress,
}

// The clauses name the refusal that a `?` makes, so both are written out.
impl From<ValueFault> for ResolveFault {
    ghost from_gives = { λ _ r. r ≡ Unreadable };

    fn from(_fault: ValueFault) -> ResolveFault {
        ResolveFault::Unreadable
    }
}

impl From<RunFault> for ResolveFault {
    ghost from_gives = { λ e r. r ≡ Runs e };

    fn from(fault: RunFault) -> ResolveFault {
        ResolveFault::Runs(fault)
    }
}

impl ResolveFault {
    // The number by which the refusal is known.
    pub fn number(self) -> u8
        ensures { result ≡ number self }
    {
        match self {
            ResolveFault::RuleBroken => 30,
            ResolveFault::NotStatic => 31,
            ResolveFault::NotFound => 32,
            ResolveFault::Unreadable => 33,
            ResolveFault::NoLength => 34,
            ResolveFault::BothOrNeither => 35,
            ResolveFault::Runs(fault) => fault.number(),
            ResolveFault::NoAddress => 39,
        }
    }
}
