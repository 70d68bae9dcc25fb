// What the manifest's timeline is made from, beside its runs.
use address::Parts;

// How a manifest gives its segments: by S elements, which are runs, or by an even duration in ticks.
#[derive(Clone, Copy, Debug, PartialEq, Eq)]
pub enum Kind {
    Written,
    Even(u64),
}

// The values of the chosen Period and Representation. The period is its length in ticks, and the
// offset is the tick of the bottom timeline at which the Period begins.
#[derive(Clone, Copy)]
pub struct Plan<'a> {
    pub timescale: u32,
    pub first: u32,
    pub period: u64,
    pub offset: u64,
    pub kind: Kind,
    pub parts: Parts<'a>,
}
