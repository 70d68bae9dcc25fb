// The lines of a timeline.
ghost use Rattle.std.specs.Prelude.{[], ◌++◌, length, codes, slice_index_or};
ghost use Rattle.output.specs.Digits.{padded};
ghost use Rattle.output.specs.Text.{Puts};
ghost use Rattle.timeline.specs.Addresses.{Addressing};
ghost use Rattle.timeline.specs.Segments.{blank};
ghost use Rattle.presentation.specs.Lists.{timeline_of, addresses_of};
ghost use Rattle.full_listing.specs.Lines.{segment_text, timeline_lines};

use listing::{Line, put_line};
use output::{Guard, Mark, NoRoom, put, put_number};
use presentation::{Plan, lay_out};
use timeline::{AddressFault, Addressed, NoSuchPlace, Run, Segment, Timeline};

// A number and the space behind it.
fn put_field(bytes: &mut [u8], mark: &mut Mark, n: u64) -> Result<(), NoRoom>
    ensures { Puts bytes.old mark.old.used (padded 1 n ++ codes " ") bytes.new mark.new.used result }
{
    let guard = Guard::hold(mark);
    put_number(bytes, guard.mark, n, 1)?;
    put(bytes, guard.mark, b" ")?;
    guard.accept();
    Ok(())
}

// The fields before the address.
fn put_times(bytes: &mut [u8], mark: &mut Mark, segment: Segment) -> Result<(), NoRoom>
    ensures { Puts bytes.old mark.old.used ((padded 1 segment.number ++ codes " ") ++ ((padded 1 segment.start ++ codes " ") ++ (padded 1 segment.length ++ codes " "))) bytes.new mark.new.used result }
{
    let guard = Guard::hold(mark);
    put_field(bytes, guard.mark, segment.number as u64)?;
    put_field(bytes, guard.mark, segment.start)?;
    put_field(bytes, guard.mark, segment.length)?;
    guard.accept();
    Ok(())
}

// The line of the segment at a place, with its address.
fn put_segment<T: Addressed>(
    bytes: &mut [u8],
    mark: &mut Mark,
    timeline: &T,
    place: u32,
) -> Result<(), AddressFault>
    ensures { Addressing
        (length (T.Timeline.segments timeline.now)) place
        (segment_text (slice_index_or (T.Timeline.segments timeline.now) place blank) (T.Addressed.address timeline.now place))
        bytes.old mark.old.used bytes.new mark.new.used result }
{
    let segment = timeline.segment(place)?;
    let guard = Guard::hold(mark);
    put_times(bytes, guard.mark, segment)?;
    timeline.write_address(place, bytes, guard.mark)?;
    put(bytes, guard.mark, b"\n")?;
    guard.accept();
    Ok(())
}

// The counts of findings and segments, at the places 0 and 1, or the segment two places before.
fn put_laid<T: Addressed>(
    bytes: &mut [u8],
    mark: &mut Mark,
    timeline: &T,
    place: u64,
) -> Result<(), AddressFault>
    ensures { Addressing
        (length (timeline_lines (T.Timeline.segments timeline.now) (T.Addressed.address timeline.now))) place
        (slice_index_or (timeline_lines (T.Timeline.segments timeline.now) (T.Addressed.address timeline.now)) place [])
        bytes.old mark.old.used bytes.new mark.new.used result }
{
    let before = match place {
        0 => return Ok(put_line(bytes, mark, Line::Findings(0))?),
        1 => return Ok(put_line(bytes, mark, Line::Segments(timeline.count() as u64))?),
        _ => place - 2,
    };
    match u32::try_from(before) {
        Ok(before) => put_segment(bytes, mark, timeline, before),
        Err(_) => Err(AddressFault::NoSuchPlace(NoSuchPlace)),
    }
}

// The same of the timeline that the plan and its runs give.
pub(crate) fn put_planned<'a>(
    bytes: &mut [u8],
    mark: &mut Mark,
    plan: Plan<'a>,
    runs: &'a [Run],
    place: u64,
) -> Result<(), AddressFault>
    ensures { Addressing
        (length (timeline_lines (timeline_of plan.entry runs.now) (addresses_of plan.entry runs.now))) place
        (slice_index_or (timeline_lines (timeline_of plan.entry runs.now) (addresses_of plan.entry runs.now)) place [])
        bytes.old mark.old.used bytes.new mark.new.used result }
{
    let timeline = lay_out(plan, runs);
    put_laid(bytes, mark, &timeline, place)
}
