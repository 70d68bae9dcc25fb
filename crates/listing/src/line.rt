// A line of a listing and its bytes.
ghost use Rattle.std.specs.Prelude.{◌≡◌, [], ◌∷◌, ◌++◌};
ghost use Rattle.output.specs.Digits.{padded};
ghost use Rattle.output.specs.Text.{Puts};
ghost use Rattle.rules.specs.Laws.{number_of};
ghost use Rattle.listing.specs.Lines.{text, angle_at, finding_line};

use output::{Guard, Mark, NoRoom, put, put_labelled};
use rules::{Finding, Rule};
use tables::Element;

// A line of a listing: the numbers that it prints, whichever type they came from.
#[derive(Clone, Copy, Debug, PartialEq, Eq)]
pub enum Line {
    // How many findings follow.
    Findings(u64),
    // The number of a rule that is broken, and the byte of the '<' of the element at which it is.
    Finding(u8, u64),
    // How many segments follow.
    Segments(u64),
    // The number of a refusal.
    Refused(u8),
}

impl Line {
    // The line of the finding.
    pub fn of_finding(elements: &[Element], finding: Finding) -> Line
        ensures { result ≡ finding_line elements.now finding }
    {
        Line::Finding(number_of(finding.rule), angle_at(elements, finding.element))
    }
}

// The byte of the '<' of the element in the row.
fn angle_at(elements: &[Element], row: usize) -> u64
    ensures { result ≡ angle_at elements.now row }
{
    elements
        .get(row)
        .map_or(0, |element| element.name.at.saturating_sub(1) as u64)
}

// The number of the rule, 0 where there is none.
fn number_of(rule: Option<Rule>) -> u8
    ensures { result ≡ number_of rule }
{
    rule.map_or(0, Rule::number)
}

// A word, a number and the end of the line.
fn put_counted(bytes: &mut [u8], mark: &mut Mark, word: &[u8], n: u64) -> Result<(), NoRoom>
    ensures { Puts bytes.old mark.old.used (word.now ++ (padded 1 n ++ (10 ∷ []))) bytes.new mark.new.used result }
{
    let guard = Guard::hold(mark);
    put_labelled(bytes, guard.mark, word, n)?;
    put(bytes, guard.mark, b"\n")?;
    guard.accept();
    Ok(())
}

fn put_finding(bytes: &mut [u8], mark: &mut Mark, rule: u8, byte: u64) -> Result<(), NoRoom>
    ensures { Puts bytes.old mark.old.used (text (Line.Finding rule byte)) bytes.new mark.new.used result }
{
    let guard = Guard::hold(mark);
    put_labelled(bytes, guard.mark, b"F", rule as u64)?;
    put_counted(bytes, guard.mark, b" ", byte)?;
    guard.accept();
    Ok(())
}

// Puts the line, with the LF that ends it.
pub fn put_line(bytes: &mut [u8], mark: &mut Mark, line: Line) -> Result<(), NoRoom>
    ensures { Puts bytes.old mark.old.used (text line) bytes.new mark.new.used result }
{
    match line {
        Line::Findings(count) => put_counted(bytes, mark, b"findings ", count),
        Line::Finding(rule, byte) => put_finding(bytes, mark, rule, byte),
        Line::Segments(count) => put_counted(bytes, mark, b"segments ", count),
        Line::Refused(number) => put_counted(bytes, mark, b"refused ", number as u64),
    }
}
