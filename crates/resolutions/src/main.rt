// Reads and resolves the manifest of each line of standard input, and prints what its timeline is.
#![tactic(auto)]

use anyhow::Context;
use chosen::Positions;
use output::{Mark, Output};
use presentation::{Kind, Plan, account, lay_out};
use reader::read;
use resolve::resolve;
use std::io;
use std::io::Write;
use tables::{Attribute, Element, ManifestRows, Row, Table};
use timeline::{Addressed, Run, Timeline};
use tree::Tree;

// Prints the values of the plan, and the runs where they were written.
fn print_plan(rt: &HostRuntime, plan: &Plan, runs: &[Run]) -> io::Result<()> {
    let (timescale, first, period, offset) = (plan.timescale, plan.first, plan.period, plan.offset);
    print!(rt; "ok {timescale} {first} {period} {offset}")?;
    match plan.kind {
        Kind::Written => print!(rt; " written")?,
        Kind::Even(_) => print!(rt; " even")?,
    }
    for run in runs {
        print!(rt; " {}/{}/{}", run.start, run.length, run.count)?;
    }
    Ok(())
}

// Prints the segment at the place with its address.
fn print_segment<T: Addressed>(rt: &HostRuntime, timeline: &T, place: u32) -> io::Result<()> {
    let Ok(segment) = timeline.segment(place) else {
        return Ok(());
    };
    print!(rt; " {}:{}:{}:", segment.number, segment.start, segment.length)?;
    let mut bytes = [0u8; 8_192];
    let mut mark = Mark { used: 0 };
    let _ = timeline.write_address(place, &mut bytes, &mut mark);
    let out = Output {
        bytes: &mut bytes,
        mark,
    };
    rt.stdout().write_all(out.written())
}

// Prints the count of the segments, and the first and the last of them.
fn print_ends<T: Addressed>(rt: &HostRuntime, timeline: &T) -> io::Result<()> {
    let count = timeline.count();
    print!(rt; " segments {count}")?;
    if count > 0 {
        print_segment(rt, timeline, 0)?;
        print_segment(rt, timeline, count - 1)?;
    }
    Ok(())
}

// Prints the line of a manifest that was resolved.
fn print_accepted<'a>(rt: &HostRuntime, plan: Plan<'a>, runs: &'a [Run]) -> io::Result<()> {
    print_plan(rt, &plan, runs)?;
    let sums = account(&plan, runs);
    print!(rt;
        " sums {} {} {} {}",
        sums.listed, sums.before, sums.after, sums.written
    )?;
    print_ends(rt, &lay_out(plan, runs))?;
    println!(rt; "")
}

// Prints what comes of the manifest at the positions, with so much room for runs.
fn print_resolution(
    rt: &HostRuntime,
    manifest: &[u8],
    at: Positions,
    runs: &mut [Run],
) -> io::Result<()> {
    let mut element_rows = [Element::zeroed(); 64];
    let mut attribute_rows = [Attribute::zeroed(); 64];
    let mut rows = ManifestRows::new(&mut element_rows, &mut attribute_rows);
    let mut runs = Table::new(runs);
    if let Err(fault) = read(manifest, &mut rows) {
        return println!(rt; "refused {}", fault.number());
    }
    match resolve(&Tree::of(manifest, &rows), at, &mut runs) {
        Ok(plan) => print_accepted(rt, plan, runs.rows()),
        Err(fault) => println!(rt; "refused {}", fault.number()),
    }
}

// Prints what comes of a line: the positions of a Period and a Representation, the rows of the run
// table and the manifest, with a blank between them.
fn print_line(rt: &HostRuntime, line: &str) -> anyhow::Result<()> {
    let (period, rest) = line.split_once(' ').context("no Period")?;
    let (representation, rest) = rest.split_once(' ').context("no Representation")?;
    let (rows, manifest) = rest.split_once(' ').context("no room for runs")?;
    let at = Positions {
        period: period.parse::<usize>()?,
        representation: representation.parse::<usize>()?,
    };
    let rows = rows.parse::<usize>()?;
    let mut runs = [Run::zeroed(); 16];
    let room = rows.min(runs.len());
    print_resolution(rt, manifest.as_bytes(), at, &mut runs[..room])?;
    Ok(())
}

fn main(rt: HostRuntime) -> anyhow::Result<()> {
    for line in rt.lines(rt.alloc()) {
        let line = line?;
        print_line(&rt, line.as_str())?;
    }
    Ok(())
}
