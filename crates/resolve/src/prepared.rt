// What is known before the segments are asked for.
use crate::numbers::Numbers;
use chosen::Chosen;

// The chosen rows, their numbers, the Period's length in ticks, and the row of the SegmentTimeline.
#[derive(Clone, Copy)]
pub(crate) struct Prepared {
    pub(crate) chosen: Chosen,
    pub(crate) numbers: Numbers,
    pub(crate) period: u64,
    pub(crate) timeline: Option<usize>,
}
