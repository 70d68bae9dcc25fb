// The lines of a listing, place by place.
ghost use Rattle.std.specs.Prelude.{◌≡◌, [], length, slice_index_or};
ghost use Rattle.timeline.specs.Addresses.{Addressing};
ghost use Rattle.full_listing.specs.Lines.{refused_lines, found_lines, lines_in};
ghost use Rattle.full_listing.specs.Prints.{Prints, Lawful, Written};

use crate::fault::ListFault;
use crate::segments::put_planned;
use listing::{Line, line_at, put_line};
use output::{Mark, Output};
use presentation::Plan;
use rules::Finding;
use tables::Element;
use timeline::{AddressFault, NoSuchPlace, Run};

// What is written: a line of the listing, the line of a refusal that ends it, or nothing past its end.
#[derive(Clone, Copy, Debug, PartialEq, Eq)]
pub enum Printed {
    Line,
    Last,
    End,
}

// What a survey answered, and the rows that it left.
#[derive(Clone, Copy)]
pub struct Listing<'m, 'r> {
    pub answer: Result<Option<Plan<'m>>, ListFault>,
    pub elements: &'r [Element],
    pub findings: &'r [Finding],
    pub runs: &'r [Run],
}

impl Listing<'_, '_> {
    // More places than a listing has whose findings number less than 2^32: two counts, and a line for each place of a
    // timeline.
    pub const PLACES: u64 = u32::MAX as u64 + 3;
}

// The line of a refusal, at the place 0.
fn put_refused(
    bytes: &mut [u8],
    mark: &mut Mark,
    fault: ListFault,
    place: u64,
) -> Result<(), AddressFault>
    ensures { Addressing (length (refused_lines fault)) place (slice_index_or (refused_lines fault) place []) bytes.old mark.old.used bytes.new mark.new.used result }
{
    if place > 0 {
        return Err(AddressFault::NoSuchPlace(NoSuchPlace));
    }
    put_line(bytes, mark, Line::Refused(fault.number()))?;
    Ok(())
}

// The count of the findings, at the place 0, or the finding before the place.
fn put_found(
    bytes: &mut [u8],
    mark: &mut Mark,
    elements: &[Element],
    findings: &[Finding],
    place: u64,
) -> Result<(), AddressFault>
    ensures { Addressing (length (found_lines elements.now findings.now)) place (slice_index_or (found_lines elements.now findings.now) place []) bytes.old mark.old.used bytes.new mark.new.used result }
{
    let Some(line) = line_at(Ok(()), elements, findings, place as usize) else {
        return Err(AddressFault::NoSuchPlace(NoSuchPlace));
    };
    put_line(bytes, mark, line)?;
    Ok(())
}

impl<'m, 'r> Listing<'m, 'r> {
    // The line at a place of the listing.
    fn put_at(&self, bytes: &mut [u8], mark: &mut Mark, place: u64) -> Result<(), AddressFault>
        ensures { Addressing (length (lines_in self.now)) place (slice_index_or (lines_in self.now) place []) bytes.old mark.old.used bytes.new mark.new.used result }
    {
        match self.answer {
            Ok(Some(plan)) => put_planned(bytes, mark, plan, self.runs, place),
            Ok(None) => put_found(bytes, mark, self.elements, self.findings, place),
            Err(fault) => put_refused(bytes, mark, fault, place),
        }
    }

    // The line at a place, and in place of one that does not fit the line of that refusal.
    fn print_at(&self, bytes: &mut [u8], mark: &mut Mark, place: u64) -> Printed
        ensures written { Prints (lines_in self.now) place bytes.old mark.old.used bytes.new mark.new.used result }
        ensures law { Lawful (lines_in self.now) place bytes.old mark.old.used bytes.new mark.new.used result }
    {
        match self.put_at(bytes, mark, place) {
            Ok(()) => Printed::Line,
            Err(AddressFault::NoSuchPlace(_)) => Printed::End,
            Err(AddressFault::NoRoom(full)) => {
                let _ = put_line(bytes, mark, Line::Refused(full.number()));
                Printed::Last
            }
        }
    }

    // Writes the line at a place of the listing.
    pub fn write_line(&self, place: u64, out: &mut Output) -> Printed
        ensures { Written (lines_in self.now) place out.old out.new result }
    {
        self.print_at(out.bytes, &mut out.mark, place)
    }
}
