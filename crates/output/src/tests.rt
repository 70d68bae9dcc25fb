// A text of several parts under one guard, and tables of cases.
ghost use Rattle.std.specs.Prelude.{[], ◌∷◌, ◌++◌, codes};
ghost use Rattle.output.specs.Digits.{padded};
ghost use Rattle.output.specs.Text.{Puts};

use super::*;

// A count with words before it and the end of the line behind it.
fn line(bytes: &mut [u8], mark: &mut Mark, n: u64) -> Result<(), NoRoom>
    ensures { Puts bytes.old mark.old.used (codes "findings " ++ (padded 1 n ++ (10 ∷ []))) bytes.new mark.new.used result }
{
    let guard = Guard::hold(mark);
    put(bytes, guard.mark, b"findings ")?;
    put_number(bytes, guard.mark, n, 1)?;
    put(bytes, guard.mark, b"\n")?;
    guard.accept();
    Ok(())
}

fn put_case(
    used: usize,
    text: &[u8],
    answer: Result<(), NoRoom>,
    moved: usize,
    left: [u8; 4],
) -> bool {
    let mut bytes = *b"....";
    let mut mark = Mark { used };
    put(&mut bytes, &mut mark, text) == answer && mark.used == moved && bytes == left
}

#[test]
fn texts(rt: HostRuntime) {
    assert!(rt; put_case(0, b"", Ok(()), 0, *b"...."));
    assert!(rt; put_case(0, b"abcd", Ok(()), 4, *b"abcd"));
    assert!(rt; put_case(0, b"abcde", Err(NoRoom), 0, *b"abcd"));
    assert!(rt; put_case(1, b"ab", Ok(()), 3, *b".ab."));
    assert!(rt; put_case(3, b"a", Ok(()), 4, *b"...a"));
    assert!(rt; put_case(3, b"ab", Err(NoRoom), 3, *b"...a"));
    assert!(rt; put_case(4, b"", Ok(()), 4, *b"...."));
    assert!(rt; put_case(4, b"a", Err(NoRoom), 4, *b"...."));
    assert!(rt; put_case(9, b"", Ok(()), 9, *b"...."));
    assert!(rt; put_case(9, b"a", Err(NoRoom), 9, *b"...."));
}

fn number_case(n: u64, width: u8, text: &[u8]) -> bool {
    let mut bytes = [0u8; 20];
    let mut out = Output::new(&mut bytes);
    out.write_number(n, width) == Ok(()) && out.written() == text
}

#[test]
fn numbers(rt: HostRuntime) {
    assert!(rt; number_case(42, 5, b"00042"));
    assert!(rt; number_case(42, 0, b"42"));
    assert!(rt; number_case(42, 1, b"42"));
    assert!(rt; number_case(0, 0, b"0"));
    assert!(rt; number_case(7, 20, b"00000000000000000007"));
    assert!(rt; number_case(7, 21, b"00000000000000000007"));
    assert!(rt; number_case(18446744073709551615, 1, b"18446744073709551615"));
    assert!(rt; number_case(18446744073709551615, 20, b"18446744073709551615"));
}

#[test]
fn lines(rt: HostRuntime) {
    let mut bytes = *b"............";
    let mut mark = Mark { used: 0 };
    assert_eq!(rt; line(&mut bytes, &mut mark, 7), Ok(()));
    assert_eq!(rt; mark.used, 11);
    assert_eq!(rt; bytes, *b"findings 7\n.");
    assert_eq!(rt; line(&mut bytes, &mut mark, 7), Err(NoRoom));
    assert_eq!(rt; mark.used, 11);
    assert_eq!(rt; bytes, *b"findings 7\nf");
}

#[test]
fn labels(rt: HostRuntime) {
    let mut bytes = *b"......";
    let mut mark = Mark { used: 1 };
    assert_eq!(rt; put_labelled(&mut bytes, &mut mark, b"at ", 12), Ok(()));
    assert_eq!(rt; mark.used, 6);
    assert_eq!(rt; bytes, *b".at 12");
    assert_eq!(rt; put_labelled(&mut bytes, &mut mark, b"", 7), Err(NoRoom));
    assert_eq!(rt; mark.used, 6);
}
