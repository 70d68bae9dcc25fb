// Prints what timelines tell under piles of shifts and cuts, and where a head goes over them.
#![tactic(auto)]

use address::Parts;
use bottom::Placed;
use head::Head;
use output::{Mark, Output};
use std::io;
use std::io::Write;
use timeline::{Addressed, Cut, Even, Run, Shift, Timeline, Written};

// Two layers that take one tick off and keep the rest.
fn later<T>(below: T) -> Cut<Shift<T>> {
    Cut {
        below: Shift { below, by: 1 },
        at: u64::MAX,
    }
}

// Prints each segment with its address.
fn print_timeline<T: Addressed>(rt: &HostRuntime, timeline: &T) -> io::Result<()> {
    println!(rt; "segments {}", timeline.count())?;
    for place in 0..timeline.count() {
        let Ok(segment) = timeline.segment(place) else {
            break;
        };
        let mut bytes = [0u8; 64];
        let mut mark = Mark { used: 0 };
        let _ = timeline.write_address(place, &mut bytes, &mut mark);
        let out = Output {
            bytes: &mut bytes,
            mark,
        };
        print!(rt; "{} {} {} ", segment.number, segment.start, segment.length)?;
        rt.stdout().write_all(out.written())?;
        println!(rt; "")?;
    }
    Ok(())
}

// Prints where a new head stands after each seek.
fn print_seeks<T: Timeline>(rt: &HostRuntime, timeline: &T, times: &[u64]) -> io::Result<()> {
    let mut head = Head::new(10);
    for ms in times {
        match head.seek(timeline, *ms) {
            Ok(()) => println!(rt; "seek {} stands at {:?}", *ms, head.place())?,
            Err(fault) => println!(rt; "seek {} refused {}", *ms, fault.number())?,
        }
    }
    Ok(())
}

// Puts six layers more over the timeline, three times, and prints what the pile tells.
fn print_pile<T: Addressed + Drop>(rt: &HostRuntime, below: T, times: &[u64]) -> io::Result<()> {
    print_higher(rt, later(later(later(below))), times)
}

fn print_higher<T: Addressed + Drop>(rt: &HostRuntime, below: T, times: &[u64]) -> io::Result<()> {
    print_highest(rt, later(later(later(below))), times)
}

fn print_highest<T: Addressed + Drop>(rt: &HostRuntime, below: T, times: &[u64]) -> io::Result<()> {
    let pile = later(later(later(below)));
    print_timeline(rt, &pile)?;
    print_seeks(rt, &pile, times)
}

fn parts<'a>(base: &'a [u8], template: &'a [u8], id: &'a [u8]) -> Parts<'a> {
    Parts {
        mpd: Some(base),
        period: None,
        set: None,
        representation: None,
        template,
        id,
        bandwidth: 0,
    }
}

fn main(rt: HostRuntime) -> io::Result<()> {
    let runs = [
        Run {
            start: 0,
            length: 20,
            count: 2,
        },
        Run {
            start: 45,
            length: 20,
            count: 1,
        },
    ];
    let placed = Placed::new(
        Written::new(5, &runs),
        parts(b"http://h/", b"$RepresentationID$/$Time$", b"v1"),
    );
    let sample = Cut {
        below: Shift {
            below: placed,
            by: 5,
        },
        at: 50,
    };
    print_timeline(&rt, &sample)?;
    print_seeks(
        &rt,
        &sample,
        &[0, 1_499, 1_500, 3_499, 3_500, 3_999, 4_000, 5_000],
    )?;
    print_pile(&rt, sample, &[599, 600, 2_600, 3_100, 4_099, 4_100])?;
    let broken = Placed::new(Even::new(1, 10, 30), parts(b"", b"$Number", b""));
    print_timeline(&rt, &broken)
}
