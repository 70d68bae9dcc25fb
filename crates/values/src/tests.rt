// Texts that are values and texts that are not.
use super::*;

const NO_NUMBER: Result<u64, ValueFault> = Err(ValueFault::NoWholeNumber);

const NO_COUNT: Result<i32, ValueFault> = Err(ValueFault::NoWholeNumber);

const NO_TIME: Result<u64, ValueFault> = Err(ValueFault::NoDuration);

// A text, a range, and what is read.
const NUMBERS: [(&[u8], u64, u64, Result<u64, ValueFault>); 8] = [
    (b"", 0, u64::MAX, NO_NUMBER),
    (b"0", 0, u64::MAX, Ok(0)),
    (b"007", 7, 7, Ok(7)),
    (b"7", 8, u64::MAX, NO_NUMBER),
    (b"8", 0, 7, NO_NUMBER),
    (b"18446744073709551615", 0, u64::MAX, Ok(u64::MAX)),
    (b"18446744073709551616", 0, u64::MAX, NO_NUMBER),
    (
        b"1234567890123456789012345678901234567890",
        0,
        u64::MAX,
        NO_NUMBER,
    ),
];

const COUNTS: [(&[u8], Result<i32, ValueFault>); 7] = [
    (b"-1", Ok(-1)),
    (b"-01", NO_COUNT),
    (b"-0", NO_COUNT),
    (b"+1", NO_COUNT),
    (b"00", Ok(0)),
    (b"2147483646", Ok(2_147_483_646)),
    (b"2147483647", NO_COUNT),
];

const DURATIONS: [(&[u8], Result<u64, ValueFault>); 10] = [
    (b"PT0S", Ok(0)),
    (b"PT1H1M1.5S", Ok(3_661_500)),
    (b"PT", NO_TIME),
    (b"PT1.S", NO_TIME),
    (b"PT.5S", NO_TIME),
    (b"PT1.2345S", NO_TIME),
    (b"PT100000000S", Ok(100_000_000_000)),
    (b"PT100000000.001S", NO_TIME),
    (b"PT1S1M", NO_TIME),
    (b"P1DT1S", NO_TIME),
];

#[test]
fn numbers(rt: HostRuntime) {
    for (text, low, high, answer) in NUMBERS {
        assert_eq!(rt; whole(text, low, high), answer);
    }
}

#[test]
fn counts(rt: HostRuntime) {
    for (text, answer) in COUNTS {
        assert_eq!(rt; repeat(text), answer);
    }
}

#[test]
fn durations(rt: HostRuntime) {
    for (text, answer) in DURATIONS {
        assert_eq!(rt; duration(text), answer);
    }
}
