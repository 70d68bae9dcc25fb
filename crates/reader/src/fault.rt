// The refusals of reading.
ghost use Rattle.std.specs.Prelude.{◌≡◌};
ghost use Rattle.reader.specs.Numbers.{number};
ghost use Rattle.reader.specs.Outcomes.{fault};

// Why a manifest is not read.
#[derive(Clone, Copy, Debug, PartialEq, Eq)]
pub enum ReadRefusal {
    TooLong,
    Grammar,
    TooDeep,
    ClosingName,
    Ampersand,
    ElementsFull,
    AttributesFull,
    AttributeTwice,
}

impl ReadRefusal {
    // The refusal at the byte.
    pub(crate) fn at(self, byte: usize) -> ReadFault
        ensures { result ≡ fault self byte }
    {
        ReadFault {
            refusal: self,
            byte,
        }
    }
}

// A refusal and the byte of the manifest that it is told for.
#[derive(Clone, Copy, Debug, PartialEq, Eq)]
pub struct ReadFault {
    pub refusal: ReadRefusal,
    pub byte: usize,
}

impl ReadFault {
    // The number by which the refusal is known.
    // A match and no discriminants, so that the proof sees a wrong number.
    pub fn number(&self) -> u8
        ensures { result ≡ number self.now.refusal }
    {
        match self.refusal {
            ReadRefusal::TooLong => 10,
            ReadRefusal::Grammar => 11,
            ReadRefusal::TooDeep => 12,
            ReadRefusal::ClosingName => 13,
            ReadRefusal::Ampersand => 14,
            ReadRefusal::ElementsFull => 15,
            ReadRefusal::AttributesFull => 16,
            ReadRefusal::AttributeTwice => 17,
        }
    }
}
