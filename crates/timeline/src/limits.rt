// The limits of every timeline.
ghost use Rattle.std.specs.Prelude.{◌≡◌};
ghost use Rattle.timeline.specs.Limits.{too_many};

// The most segments.
const MOST_SEGMENTS: u64 = 2_147_483_647;

// The latest tick, by which each segment ends.
pub const LATEST_END: u64 = 9_007_199_254_740_992;

// Every number is below this.
const NUMBERS: u64 = 4_294_967_296;

// Whether segments from that first number on are over a limit.
pub fn is_too_many(first: u32, total: u64) -> bool
    ensures { result ≡ too_many first total }
{
    total > MOST_SEGMENTS || u64::from(first) + total > NUMBERS
}
