// The whole numbers of the chosen Representation.

// Those that are absent have their defaults, but for the duration, which has none.
#[derive(Clone, Copy)]
pub(crate) struct Numbers {
    pub(crate) timescale: u32,
    pub(crate) first: u32,
    pub(crate) bandwidth: u64,
    pub(crate) duration: Option<u64>,
    pub(crate) offset: u64,
}
