// The conformance rules, and what says that one is broken.
ghost use Rattle.std.specs.Prelude.{◌≡◌};
ghost use Rattle.rules.specs.Broken.{number};
ghost use Rattle.rules.specs.Faults.{fault_number};
ghost use Rattle.rules.specs.Findings.{no_finding};

use tables::Row;

// What a manifest may not have.
#[derive(Clone, Copy, Debug, PartialEq, Eq)]
pub enum Rule {
    // F1: a dynamic MPD without availabilityStartTime.
    DynamicUnanchored,
    // F2: a static MPD with timeShiftBufferDepth.
    StaticTimeShift,
    // F3: a static MPD without mediaPresentationDuration.
    StaticUnbounded,
    // F4: an MPD with neither mediaPresentationDuration nor minimumUpdatePeriod.
    NoDurationNorUpdate,
    // F5: an MPD without maxSegmentDuration.
    NoMaxSegmentDuration,
    // F6: a SegmentTemplate with both duration and a SegmentTimeline child.
    DurationAndTimeline,
    // F7: a SegmentTemplate whose initialization holds Number or Time before any break.
    InitializationVaries,
    // F8: a SegmentTemplate whose media is broken.
    MediaBroken,
    // F9: an AdaptationSet with contentType audio and no lang.
    AudioWithoutLanguage,
}

impl Rule {
    // The number after the F by which the rule is known.
    // A match and no discriminants, so that the proof sees a wrong number.
    pub fn number(self) -> u8
        ensures { result ≡ number self }
    {
        match self {
            Rule::DynamicUnanchored => 1,
            Rule::StaticTimeShift => 2,
            Rule::StaticUnbounded => 3,
            Rule::NoDurationNorUpdate => 4,
            Rule::NoMaxSegmentDuration => 5,
            Rule::DurationAndTimeline => 6,
            Rule::InitializationVaries => 7,
            Rule::MediaBroken => 8,
            Rule::AudioWithoutLanguage => 9,
        }
    }
}

// A rule that is broken, and the row of the element at which it is. An unused row of a table has
// no rule.
#[derive(Clone, Copy, Debug, PartialEq, Eq)]
pub struct Finding {
    pub rule: Option<Rule>,
    pub element: usize,
}

impl Row for Finding {
    ghost zero = { no_finding };

    fn zeroed() -> Finding {
        Finding {
            rule: None,
            element: 0,
        }
    }
}

// Why a manifest was not checked.
#[derive(Clone, Copy, Debug, PartialEq, Eq)]
pub enum CheckFault {
    // The findings do not fit the table.
    FindingsFull,
}

impl CheckFault {
    // The number by which the refusal is known.
    // A match and no discriminants, so that the proof sees a wrong number.
    pub fn number(self) -> u8
        ensures { result ≡ fault_number self }
    {
        match self {
            CheckFault::FindingsFull => 18,
        }
    }
}
