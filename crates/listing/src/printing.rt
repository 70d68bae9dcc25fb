// The lines of a listing, place by place.
ghost use Rattle.std.specs.Prelude.{◌≡◌, slice_get};
ghost use Rattle.output.specs.Text.{Written};
ghost use Rattle.listing.specs.Lines.{text, lines};

use crate::fault::ListFault;
use crate::line::{Line, put_line};
use output::{NoRoom, Output};
use rules::Finding;
use tables::Element;

// The line at a place of the listing, which a survey answered and left these rows for; none past the
// last one.
pub fn line_at(
    answer: Result<(), ListFault>,
    elements: &[Element],
    findings: &[Finding],
    place: usize,
) -> Option<Line>
    ensures { result ≡ slice_get (lines answer elements.now findings.now) place }
{
    match (answer, place.checked_sub(1)) {
        (Ok(()), None) => Some(Line::Findings(findings.len() as u64)),
        (Ok(()), Some(before)) => Some(Line::of_finding(elements, *findings.get(before)?)),
        (Err(fault), None) => Some(Line::Refused(fault.number())),
        (Err(_), Some(_)) => None,
    }
}

// Writes the line, with the LF that ends it.
pub fn write_line(out: &mut Output, line: Line) -> Result<(), NoRoom>
    ensures { Written out.old (text line) out.new result }
{
    put_line(out.bytes, &mut out.mark, line)
}
