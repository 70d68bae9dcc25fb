// Lists the manifests that INDEX names, and holds each listing to the expected one that lies beside it.
#![tactic(auto)]

use full_listing::{Listing, Printed, survey};
use output::Output;
use rules::Finding;
use std::alloc::{AllocError, Global};
use std::io::Write;
use std::{fs, io};
use tables::{Attribute, Element, ManifestRows, Row, Table};
use timeline::Run;

const LINE: usize = 65_536;

const ROWS: usize = 1_024;

// Adds the line at a place to the listing.
fn list_line(listed: &mut Vec<u8>, listing: &Listing, place: u64) -> Result<Printed, AllocError> {
    let mut bytes = [0u8; LINE];
    let mut out = Output::new(&mut bytes);
    let printed = listing.write_line(place, &mut out);
    listed.extend_from_slice(out.written())?;
    Ok(printed)
}

// The whole listing of the manifest.
fn list(heap: Global, manifest: &[u8]) -> Result<Vec<u8>, AllocError> {
    // The rows stand here, since a table only borrows them.
    let mut element_rows = [Element::zeroed(); ROWS];
    let mut attribute_rows = [Attribute::zeroed(); ROWS];
    let mut finding_rows = [Finding::zeroed(); ROWS];
    let mut run_rows = [Run::zeroed(); ROWS];
    let mut rows = ManifestRows::new(&mut element_rows, &mut attribute_rows);
    let mut findings = Table::new(&mut finding_rows);
    let mut runs = Table::new(&mut run_rows);
    let answer = survey(manifest, &mut rows, &mut findings, &mut runs);
    let listing = Listing {
        answer,
        elements: rows.elements.rows(),
        findings: findings.rows(),
        runs: runs.rows(),
    };
    let mut listed = Vec::new(heap);
    for place in 0..Listing::PLACES {
        if list_line(&mut listed, &listing, place)? != Printed::Line {
            break;
        }
    }
    Ok(listed)
}

// Where the first line begins that the two texts do not share.
fn parting(a: &[u8], b: &[u8]) -> usize {
    let shared = a.iter().zip(b).take_while(|(x, y)| x == y).count();
    let met = &a[..shared.min(a.len())];
    met.iter().rposition(|b| *b == b'\n').map_or(0, |at| at + 1)
}

// How many lines end in the text.
fn count_lines(text: &[u8]) -> usize {
    text.iter().filter(|b| **b == b'\n').count()
}

// The text up to the end of its first line.
fn first_line(text: &[u8]) -> &[u8] {
    text.split(|b| *b == b'\n').next().unwrap_or(text)
}

// Prints the line of a listing that is not the expected one.
fn print_difference(
    rt: &HostRuntime,
    name: &str,
    expected: &[u8],
    listed: &[u8],
) -> io::Result<()> {
    let from = parting(expected, listed);
    let (wanted, got) = (
        &expected[from.min(expected.len())..],
        &listed[from.min(listed.len())..],
    );
    let met = &expected[0..from.min(expected.len())];
    let line = count_lines(met).saturating_add(1);
    print!(rt; "{name} differs at line {line}: expected ")?;
    rt.stdout().write_all(first_line(wanted))?;
    print!(rt; " got ")?;
    rt.stdout().write_all(first_line(got))?;
    println!(rt; "")
}

// Lists the manifest of that name, and prints whether its listing is the expected one.
fn hold(rt: &HostRuntime, name: &str) -> anyhow::Result<bool> {
    let heap = rt.alloc();
    let manifest = fs::read(rt, format!(in heap; "{name}.mpd")?)?;
    let expected = fs::read(rt, format!(in heap; "{name}.txt")?)?;
    let listed = list(heap, manifest.as_slice())?;
    let same = expected.as_slice() == listed.as_slice();
    if same {
        println!(rt; "{name} ok")?;
    } else {
        print_difference(rt, name, expected.as_slice(), listed.as_slice())?;
    }
    Ok(same)
}

fn main(rt: HostRuntime) -> anyhow::Result<()> {
    let index = fs::read_to_string(&rt, "INDEX")?;
    let (mut ok, mut differ) = (0u64, 0u64);
    for name in index.as_str().lines() {
        if hold(&rt, name)? {
            ok = ok.saturating_add(1);
        } else {
            differ = differ.saturating_add(1);
        }
    }
    println!(rt; "{ok} ok, {differ} differ")?;
    Ok(())
}
