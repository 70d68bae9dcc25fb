// The lengths that a manifest lists, leaves out and writes.

// In ticks: the listed lengths, the parts before the offset and after the Period's end, and what the
// S elements or the duration give.
#[derive(Clone, Copy, Debug, Default, PartialEq, Eq)]
pub struct Sums {
    pub listed: u64,
    pub before: u64,
    pub after: u64,
    pub written: u64,
}
