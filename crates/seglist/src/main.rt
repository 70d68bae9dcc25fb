// Lists a manifest from standard input: its findings, its segments, or the number of its refusal.
#![tactic(auto)]

use full_listing::{Listing, Printed, survey};
use output::Output;
use reader::LIMIT;
use rules::Finding;
use std::io;
use std::io::{ErrorKind, Read, Write};
use tables::{Attribute, Element, ManifestRows, Row, Table};
use timeline::Run;

// One byte more than a manifest may have, so that a longer one is seen to be too long.
const INPUT: usize = LIMIT + 1;

const LINE: usize = 65_536;

const ROWS: usize = 1_024;

// Prints the line at a place.
fn print_line(rt: &HostRuntime, listing: &Listing, place: u64) -> io::Result<Printed> {
    let mut bytes = [0u8; LINE];
    let mut out = Output::new(&mut bytes);
    let printed = listing.write_line(place, &mut out);
    rt.stdout().write_all(out.written())?;
    Ok(printed)
}

// Prints the lines of the manifest's listing.
fn print_listing(rt: &HostRuntime, manifest: &[u8]) -> io::Result<()> {
    // The rows stand here, since a table only borrows them.
    let mut element_rows = [Element::zeroed(); ROWS];
    let mut attribute_rows = [Attribute::zeroed(); ROWS];
    let mut finding_rows = [Finding::zeroed(); ROWS];
    let mut run_rows = [Run::zeroed(); ROWS];
    let mut rows = ManifestRows::new(&mut element_rows, &mut attribute_rows);
    let mut findings = Table::new(&mut finding_rows);
    let mut runs = Table::new(&mut run_rows);
    let answer = survey(manifest, &mut rows, &mut findings, &mut runs);
    let listing = Listing {
        answer,
        elements: rows.elements.rows(),
        findings: findings.rows(),
        runs: runs.rows(),
    };
    for place in 0..Listing::PLACES {
        if print_line(rt, &listing, place)? != Printed::Line {
            break;
        }
    }
    Ok(())
}

// Reads standard input into the buffer, as far as it reaches, and answers how many bytes there were.
fn read_input(rt: &HostRuntime, buffer: &mut [u8; INPUT]) -> io::Result<usize> {
    let mut input = rt.stdin().take(INPUT as u64);
    match input.read_exact(buffer) {
        Err(error) if error.kind() != ErrorKind::UnexpectedEof => Err(error),
        _ => Ok(INPUT.saturating_sub(input.limit() as usize)),
    }
}

fn main(rt: HostRuntime) -> io::Result<()> {
    // An array and no vector, so that the input takes no heap.
    let mut buffer = [0u8; INPUT];
    let end = read_input(&rt, &mut buffer)?;
    print_listing(&rt, &buffer[..end.min(INPUT)])
}
