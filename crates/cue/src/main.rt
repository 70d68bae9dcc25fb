// Tries a list of calls on a manifest's timeline, and prints what each answered and where the head stands.
#![tactic(auto)]

mod lines;
mod order;
mod report;

ghost use Rattle.std.specs.Prelude.{◌≤◌};

use anyhow::Context;
use head::{Call, Head, HeadFault};
use lines::{bare, ends_line};
use order::{NotACall, order_of};
use output::{Mark, Output};
use player::{Positions, open};
use presentation::{Plan, lay_out};
use report::put_report;
use std::io::Write;
use std::{env, fs, io};
use tables::{Attribute, Element, ManifestRows, Row, Table};
use timeline::{Addressed, Run};

const ROWS: usize = 1_024;

// The bytes of an address's line, with its LF.
const LINE: usize = 65_536;

// More bytes than what is said of a call ever has.
const REPORT: usize = 64;

// Prints the line as it was written, and behind it what is said of the call.
fn print_report(
    rt: &HostRuntime,
    line: &[u8],
    answer: Result<(), HeadFault>,
    place: Option<u32>,
) -> io::Result<()> {
    let mut bytes = [0u8; REPORT];
    let mut mark = Mark { used: 0 };
    let _ = put_report(&mut bytes, &mut mark, answer, place);
    let out = Output {
        bytes: &mut bytes,
        mark,
    };
    rt.stdout().write_all(line)?;
    rt.stdout().write_all(out.written())
}

// How long an address may be that stands behind the line and its report, with a comma, a space and LF.
fn room_beside(line: &[u8], place: Option<u32>) -> usize
    ensures { result ≤ 65536 }
{
    let mut bytes = [0u8; REPORT];
    let mut mark = Mark { used: 0 };
    let _ = put_report(&mut bytes, &mut mark, Ok(()), place);
    let rest = line.len().saturating_add(mark.used);
    LINE.saturating_sub(rest.saturating_add(3))
}

// Has the head do what the call says, and prints its line.
fn print_call<T: Addressed>(
    rt: &HostRuntime,
    timeline: &T,
    head: &mut Head,
    line: &[u8],
    call: Call,
) -> io::Result<()> {
    let mut bytes = [0u8; LINE];
    let room = room_beside(line, head.place());
    let mut mark = Mark { used: 0 };
    let lent = &mut bytes[..room];
    let answer = head.obey(timeline, call, lent, &mut mark);
    print_report(rt, line, answer, head.place())?;
    if let (Call::Address, Ok(())) = (call, answer) {
        let out = Output { bytes: lent, mark };
        rt.stdout().write_all(b", ")?;
        rt.stdout().write_all(out.written())?;
    }
    rt.stdout().write_all(b"\n")
}

// Prints a line for each line of the list that is not blank.
fn print_calls<T: Addressed>(
    rt: &HostRuntime,
    timeline: &T,
    timescale: u32,
    list: &[u8],
) -> io::Result<()> {
    let mut head = Head::new(timescale);
    for (index, line) in list.split(ends_line).enumerate() {
        let line = bare(line);
        match order_of(line) {
            Ok(Some(call)) => print_call(rt, timeline, &mut head, line, call)?,
            Ok(None) => {}
            Err(NotACall) => println!(rt; "line {}: not a call", index.saturating_add(1))?,
        }
    }
    Ok(())
}

// Tries the calls on the timeline that the plan and its runs give.
fn print_opened<'a>(
    rt: &HostRuntime,
    plan: Plan<'a>,
    runs: &'a [Run],
    list: &[u8],
) -> io::Result<()> {
    let timeline = lay_out(plan, runs);
    print_calls(rt, &timeline, plan.timescale, list)
}

// Opens the manifest and tries the calls on the timeline of its first Period's first Representation.
fn print_trial(rt: &HostRuntime, manifest: &[u8], list: &[u8]) -> io::Result<()> {
    // The rows stand here, since a table only borrows them.
    let mut element_rows = [Element::zeroed(); ROWS];
    let mut attribute_rows = [Attribute::zeroed(); ROWS];
    let mut run_rows = [Run::zeroed(); ROWS];
    let mut rows = ManifestRows::new(&mut element_rows, &mut attribute_rows);
    let mut runs = Table::new(&mut run_rows);
    match open(manifest, Positions::FIRST, &mut rows, &mut runs) {
        Ok(plan) => print_opened(rt, plan, runs.rows(), list),
        Err(fault) => println!(rt; "refused {}", fault.number()),
    }
}

fn run(rt: &HostRuntime) -> anyhow::Result<()> {
    let mut words = env::args(rt)?.skip(1);
    let manifest = words.next().context("no manifest is named")?;
    let list = words.next().context("no list of calls is named")?;
    let manifest = fs::read(rt, manifest)?;
    let list = fs::read(rt, list)?;
    print_trial(rt, manifest.as_slice(), list.as_slice())?;
    Ok(())
}

fn main(rt: HostRuntime) -> anyhow::Result<()> {
    run(&rt)
}
