// Heads on small timelines and on a long one, and a timeline with an address for each place.
ghost use Rattle.std.specs.Prelude.{◌+◌, ◌%◌, [], ◌∷◌};

use super::*;
use output::{Mark, put};
use timeline::{AddressFault, Addressed, Cut, Even, NoSuchPlace, Run, Segment, Timeline, Written};

// The timeline below, where the address of a place is its last decimal digit.
#[derive(Drop)]
struct Digits<T> {
    below: T,
}

impl<T: Timeline> Timeline for Digits<T> {
    ghost segments = { λ s. T.Timeline.segments s.below };

    ghost sound = { λ s. T.Timeline.sound s.below };

    fn count(&self) -> u32 {
        self.below.count()
    }

    fn segment(&self, place: u32) -> Result<Segment, NoSuchPlace> {
        self.below.segment(place)
    }
}

impl<T: Timeline> Addressed for Digits<T> {
    ghost address = { λ _ place. (48 + place % 10) ∷ [] };

    fn write_address(
        &self,
        place: u32,
        bytes: &mut [u8],
        mark: &mut Mark,
    ) -> Result<(), AddressFault> {
        if place >= self.below.count() {
            return Err(AddressFault::NoSuchPlace(NoSuchPlace));
        }
        let digit = [48 + (place % 10) as u8];
        put(bytes, mark, &digit)?;
        Ok(())
    }
}

fn run(start: u64, length: u64) -> Run {
    Run {
        start,
        length,
        count: 1,
    }
}

#[test]
fn heads(rt: HostRuntime) {
    let runs = [run(0, 15), run(15, 20), run(40, 10)];
    let sample = Written::new(0, &runs);
    let mut head = Head::new(10);
    assert_eq!(rt; head.on(&sample), Err(HeadFault::Nowhere));
    assert_eq!(rt; head.seek(&sample, 5_000), Err(HeadFault::NoneCovers));
    assert_eq!(rt; head.place(), None);
    assert_eq!(rt; head.seek(&sample, 0), Ok(()));
    assert_eq!(rt; head.back(&sample), Err(HeadFault::NoNeighbour));
    assert_eq!(rt; head.seek(&sample, 3_499), Ok(()));
    assert_eq!(rt; head.seek(&sample, 3_500), Err(HeadFault::NoneCovers));
    assert_eq!(rt; head.place(), Some(1));
    assert_eq!(rt; head.seek(&sample, 4_000), Ok(()));
    assert_eq!(rt; head.on(&sample), Err(HeadFault::NoNeighbour));
    assert_eq!(rt;
        head.seek(&sample, 100_000_000_001),
        Err(HeadFault::OutOfRange)
    );
    assert_eq!(rt; head.place(), Some(2));
    let short = Cut {
        below: sample,
        at: 15,
    };
    assert_eq!(rt; head.back(&short), Err(HeadFault::Nowhere));
    assert_eq!(rt; head.back(&sample), Ok(()));
    assert_eq!(rt; head.place(), Some(1));
    assert_eq!(rt; HeadFault::TwoCover.number(), 42);
}

#[test]
fn long(rt: HostRuntime) {
    let long = Even::new(7, 1, 2_147_483_647);
    let mut head = Head::new(1_000);
    assert_eq!(rt; head.seek(&long, 2_147_483_646), Ok(()));
    assert_eq!(rt; head.place(), Some(2_147_483_646));
    assert_eq!(rt; head.seek(&long, 2_147_483_647), Err(HeadFault::NoneCovers));
}

fn noted(answer: Result<(), HeadFault>, place: Option<u32>) -> Step {
    Step { answer, place }
}

#[test]
fn sequences(rt: HostRuntime) {
    let three = Digits {
        below: Even::new(0, 10, 30),
    };
    let calls = [
        Call::Address,
        Call::Seek(25),
        Call::Address,
        Call::Back,
        Call::Address,
        Call::Address,
        Call::On,
    ];
    let mut steps = [noted(Ok(()), None); 6];
    let mut bytes = *b"...";
    let mut mark = Mark { used: 1 };
    assert_eq!(rt;
        replay(&three, 1_000, &calls, &mut steps, &mut bytes, &mut mark),
        6
    );
    assert_eq!(rt; bytes, *b".21");
    assert_eq!(rt; mark.used, 3);
    assert_eq!(rt;
        steps,
        [
            noted(Err(HeadFault::Nowhere), None),
            noted(Ok(()), Some(2)),
            noted(Ok(()), Some(2)),
            noted(Ok(()), Some(1)),
            noted(Ok(()), Some(1)),
            noted(Err(HeadFault::NoRoom), Some(1)),
        ]
    );
}
