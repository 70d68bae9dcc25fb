// A sequence of calls to a new head, along one timeline.
ghost use Rattle.std.specs.Prelude.{◌≡◌, min, length};
ghost use Rattle.head.specs.Sequences.{output_of, Replays};

use crate::fault::HeadFault;
use crate::head::Head;
use crate::step::{Call, Step};
use output::Mark;
use timeline::Addressed;

// Makes a head and performs the calls one after another, as far as `steps` has rows, with a step written for each.
// Answers how many were performed.
pub fn replay<T: Addressed>(
    timeline: &T,
    timescale: u32,
    calls: &[Call],
    steps: &mut [Step],
    bytes: &mut [u8],
    mark: &mut Mark,
) -> usize
    ensures count { result ≡ min (length calls.now) (length steps.old) }
    ensures law { Replays (T.Timeline.segments timeline.now) (T.Addressed.address timeline.now) timescale calls.now steps.old steps.new (output_of bytes.old mark.old.used) (output_of bytes.new mark.new.used) result }
{
    let performed = calls.len().min(steps.len());
    let mut head = Head::new(timescale);
    // The steps go by their index: of a zip over `iter_mut` no proof knows what it wrote.
    for (i, call) in calls[..performed].iter().enumerate() {
        let answer = head.obey(timeline, *call, bytes, mark);
        steps[i] = Step {
            answer,
            place: head.place(),
        };
    }
    performed
}
