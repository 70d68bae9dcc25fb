// The manifest's timeline.
ghost use Rattle.std.specs.Prelude.{◌≡◌, ℕ, ◌+◌, ◌<◌, length};
ghost use Rattle.bottom.specs.Placing.{unless, address_at};
ghost use Rattle.timeline.specs.Layers.{shifted, cut_off};
ghost use Rattle.timeline.specs.Segments.{ended_by};
ghost use Rattle.presentation.specs.Lists.{given_by, bottom_of, timeline_of, addresses_of, of_bottom, sound_bottom};

use crate::plan::{Kind, Plan};
use bottom::Placed;
use timeline::{Cut, Even, NoSuchPlace, Run, Segment, Shift, Timeline, Written};

// A bottom timeline of either kind. It chooses by hand, since a `dyn` may not be handed out.
#[derive(Clone, Copy)]
pub enum Bottom<'a> {
    Written(Written<'a>),
    Even(Even),
}

impl<'a> Timeline for Bottom<'a> {
    ghost segments = { of_bottom };

    ghost sound = { sound_bottom };

    fn count(&self) -> u32 {
        match self {
            Bottom::Written(written) => written.count(),
            Bottom::Even(even) => even.count(),
        }
    }

    fn segment(&self, place: u32) -> Result<Segment, NoSuchPlace> {
        match self {
            Bottom::Written(written) => written.segment(place),
            Bottom::Even(even) => even.segment(place),
        }
    }

    fn ended(&self, tick: u64) -> u32 {
        match self {
            Bottom::Written(written) => written.ended(tick),
            Bottom::Even(even) => even.ended(tick),
        }
    }
}

// A cut at the Period's length over a shift by the offset over the bottom timeline.
pub type ManifestTimeline<'a> = Cut<Shift<Placed<'a, Bottom<'a>>>>;

// The bottom timeline of the plan's kind.
pub(crate) fn bottom_of<'a>(plan: &Plan, runs: &'a [Run]) -> Bottom<'a>
    ensures { of_bottom result ≡ given_by plan.now.kind plan.now.first plan.now.period runs.now }
{
    match plan.kind {
        Kind::Written => Bottom::Written(Written::new(plan.first, runs)),
        Kind::Even(duration) => Bottom::Even(Even::new(plan.first, duration, plan.period)),
    }
}

// The timeline that the plan and its runs give.
pub fn lay_out<'a>(plan: Plan<'a>, runs: &'a [Run]) -> ManifestTimeline<'a>
    ensures at { result.at ≡ plan.entry.period }
    ensures by { result.below.by ≡ plan.entry.offset }
    ensures parts { result.below.below.parts ≡ plan.entry.parts }
    ensures bottom { unless result.below.below.torn (of_bottom result.below.below.below) ≡ bottom_of plan.entry runs.now }
    ensures list { cut_off result.at (shifted result.below.by (unless result.below.below.torn (of_bottom result.below.below.below))) ≡ timeline_of plan.entry runs.now }
    ensures address { (place : ℕ) → place < length (timeline_of plan.entry runs.now) → address_at result.below.below.parts (of_bottom result.below.below.below) (ended_by (unless result.below.below.torn (of_bottom result.below.below.below)) result.below.by + place) ≡ addresses_of plan.entry runs.now place }
{
    Cut {
        below: Shift {
            below: Placed::new(bottom_of(&plan, runs), plan.parts),
            by: plan.offset,
        },
        at: plan.period,
    }
}
