// Facts about every timeline.
ghost use Rattle.timeline.specs.Theorems.{AtMostOne, PartsAddUp};

// At most one segment of a timeline covers a tick.
pub fn order_law()
    ensures { AtMostOne }
{}

// The parts of the segments that a shift and a cut leave out, and what they keep, add up to all of them.
pub fn sum_law()
    ensures { PartsAddUp }
{}
