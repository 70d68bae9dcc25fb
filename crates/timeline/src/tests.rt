// Tables of cases, and an address for each place of an even timeline.
ghost use Rattle.std.specs.Prelude.{◌+◌, ◌%◌, [], ◌∷◌};

use super::*;
use output::{Mark, put};

// The address of a place is its last decimal digit.
impl Addressed for Even {
    ghost address = { λ _ place. (48 + place % 10) ∷ [] };

    fn write_address(
        &self,
        place: u32,
        bytes: &mut [u8],
        mark: &mut Mark,
    ) -> Result<(), AddressFault> {
        if place >= self.count() {
            return Err(NoSuchPlace.into());
        }
        let digit = [48 + (place % 10) as u8];
        Ok(put(bytes, mark, &digit)?)
    }
}

fn segment(number: u32, start: u64, length: u64) -> Segment {
    Segment {
        number,
        start,
        length,
    }
}

fn run(start: u64, length: u64, count: u32) -> Run {
    Run {
        start,
        length,
        count,
    }
}

fn tells<T: Timeline>(timeline: &T, list: &[Segment]) -> bool {
    let count = timeline.count();
    (0..count)
        .zip(list)
        .all(|(place, segment)| timeline.segment(place) == Ok(*segment))
        && list.len() == count as usize
        && timeline.segment(count) == Err(NoSuchPlace)
        && timeline.segment(u32::MAX) == Err(NoSuchPlace)
}

fn writes(first: u32, runs: &[Run], list: &[Segment]) -> bool {
    tells(&Written::new(first, runs), list)
}

#[test]
fn layers(rt: HostRuntime) {
    let runs = [run(0, 20, 2), run(45, 20, 1)];
    let bottom = Written::new(5, &runs);
    let all = [segment(5, 0, 20), segment(6, 20, 20), segment(7, 45, 20)];
    assert!(rt; tells(&bottom, &all));
    assert!(rt;
        tells(
            &Shift {
                below: bottom,
                by: 0,
            },
            &all
        )
    );
    assert!(rt;
        tells(
            &Cut {
                below: bottom,
                at: u64::MAX,
            },
            &all
        )
    );
    assert!(rt;
        tells(
            &Cut {
                below: bottom,
                at: 0,
            },
            &[]
        )
    );
    assert!(rt;
        tells(
            &Cut {
                below: bottom,
                at: 20,
            },
            &[segment(5, 0, 20)]
        )
    );
}

#[test]
fn shifts(rt: HostRuntime) {
    let runs = [run(0, 20, 2), run(45, 20, 1)];
    let bottom = Written::new(5, &runs);
    assert!(rt;
        tells(
            &Shift {
                below: bottom,
                by: 64,
            },
            &[segment(7, 0, 1)]
        )
    );
    assert!(rt;
        tells(
            &Shift {
                below: bottom,
                by: 65,
            },
            &[]
        )
    );
    assert!(rt;
        tells(
            &Shift {
                below: bottom,
                by: u64::MAX,
            },
            &[]
        )
    );
}

#[test]
fn piles(rt: HostRuntime) {
    let runs = [run(0, 20, 2), run(45, 20, 1)];
    let bottom = Written::new(5, &runs);
    let late = Shift {
        below: &bottom,
        by: 5,
    };
    let shown = Cut {
        below: late,
        at: 50,
    };
    assert!(rt;
        tells(
            &shown,
            &[segment(5, 0, 15), segment(6, 15, 20), segment(7, 40, 10)]
        )
    );
    assert_eq!(rt; shown.ended(35), 2);
    assert_eq!(rt; shown.within(35, 40), 0);
    let pile = Cut {
        below: Shift {
            below: Cut {
                below: shown,
                at: 42,
            },
            by: 20,
        },
        at: 21,
    };
    assert!(rt; tells(&pile, &[segment(6, 0, 15), segment(7, 20, 1)]));
}

#[test]
fn bottoms(rt: HostRuntime) {
    let long = Even::new(7, 4_194_304, 9_007_199_250_546_688);
    assert_eq!(rt; long.count(), 2_147_483_647);
    assert_eq!(rt;
        long.segment(2_147_483_646),
        Ok(segment(2_147_483_653, 9_007_199_246_352_384, 4_194_304))
    );
    assert!(rt;
        tells(
            &Even::new(0, 20, 41),
            &[segment(0, 0, 20), segment(1, 20, 20), segment(2, 40, 20)]
        )
    );
    assert!(rt; tells(&Even::new(7, 1, 2_147_483_648), &[]));
    assert!(rt; tells(&Even::new(0, 0, 1), &[]));
    assert!(rt; tells(&Even::new(0, 4_294_967_296, 1), &[]));
    assert!(rt; tells(&Even::new(u32::MAX, 1, 2), &[]));
    assert!(rt;
        writes(
            u32::MAX,
            &[run(9_007_199_254_740_990, 2, 1)],
            &[segment(u32::MAX, 9_007_199_254_740_990, 2)]
        )
    );
    assert!(rt; writes(u32::MAX, &[run(0, 1, 2)], &[]));
    assert!(rt; writes(0, &[run(0, 1, 1), run(1, 1, 0)], &[]));
    assert!(rt; writes(0, &[run(0, 0, 1)], &[]));
    assert!(rt; writes(0, &[run(0, 2, 2), run(3, 1, 1)], &[]));
    assert!(rt; writes(0, &[run(u64::MAX, u64::MAX, u32::MAX)], &[]));
    assert!(rt;
        writes(
            0,
            &[run(0, 1, 2_147_483_647), run(2_147_483_647, 1, 1)],
            &[]
        )
    );
    assert!(rt; writes(0, &[], &[]));
}

#[test]
fn addresses(rt: HostRuntime) {
    let late = Shift {
        below: Even::new(0, 10, 100),
        by: 25,
    };
    let shown = Cut {
        below: late,
        at: 40,
    };
    let mut bytes = *b"...";
    let mut mark = Mark { used: 0 };
    assert_eq!(rt; shown.write_address(0, &mut bytes, &mut mark), Ok(()));
    assert_eq!(rt; shown.write_address(4, &mut bytes, &mut mark), Ok(()));
    assert_eq!(rt; bytes, *b"26.");
    assert_eq!(rt;
        shown.write_address(5, &mut bytes, &mut mark),
        Err(AddressFault::NoSuchPlace(NoSuchPlace))
    );
    assert_eq!(rt; bytes, *b"26.");
    assert_eq!(rt; mark.used, 2);
    assert_eq!(rt; AddressFault::NoSuchPlace(NoSuchPlace).number(), 46);
    mark.used = 3;
    let answer = shown.write_address(1, &mut bytes, &mut mark);
    assert_eq!(rt; answer.map_err(AddressFault::number), Err(45));
}
