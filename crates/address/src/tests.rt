// Tables of expansions, addresses and outputs.
use super::*;

fn expands_to(template: &[u8], number: u64, text: &[u8]) -> bool {
    let mut bytes = [0u8; 32];
    let mut mark = Mark { used: 0 };
    let values = Values {
        id: b"v1",
        bandwidth: 4294967295,
        number,
        time: 20,
    };
    let answer = put_expanded(&mut bytes, &mut mark, template, values);
    let end = mark.used.min(32);
    answer == Ok(()) && &bytes[0..end] == text
}

// A template, a number and the expansion.
#[derive(Clone, Copy)]
struct ExpansionCase<'a>(&'a [u8], u64, &'a [u8]);

#[test]
fn expansions(rt: HostRuntime) {
    let cases = [
        ExpansionCase(b"", 42, b""),
        ExpansionCase(b"$Number%05d$", 42, b"00042"),
        ExpansionCase(b"$Number%05d$", 1234567, b"1234567"),
        ExpansionCase(b"$Number%01d$", 0, b"0"),
        ExpansionCase(b"$$Number$$", 42, b"$Number$"),
        ExpansionCase(b"$$$Number$$$", 42, b"$42$"),
        ExpansionCase(b"$RepresentationID$/$Time$", 42, b"v1/20"),
        ExpansionCase(b"$Bandwidth%020d$", 42, b"00000000004294967295"),
        ExpansionCase(b"$Bandwidth$-$Number%03d$.m4s", 7, b"4294967295-007.m4s"),
    ];
    for case in &cases {
        assert!(rt; expands_to(case.0, case.1, case.2));
    }
}

// A base without bytes stands for none.
fn base(text: &[u8]) -> Option<&[u8]> {
    if text.is_empty() { None } else { Some(text) }
}

// The bases, the template and the address.
#[derive(Clone, Copy)]
struct AddressCase<'a>([&'a [u8]; 4], &'a [u8], &'a [u8]);

fn joins_to(case: AddressCase) -> bool {
    let parts = Parts {
        mpd: base(case.0[0]),
        period: base(case.0[1]),
        set: base(case.0[2]),
        representation: base(case.0[3]),
        template: case.1,
        id: b"http",
        bandwidth: 5,
    };
    let mut bytes = [0u8; 32];
    let mut mark = Mark { used: 0 };
    let answer = put_address(&mut bytes, &mut mark, &parts, 7, 20);
    let end = mark.used.min(32);
    answer == Ok(()) && &bytes[0..end] == case.2
}

#[test]
fn addresses(rt: HostRuntime) {
    let cases = [
        AddressCase([b"", b"", b"", b""], b"/x/$Number$", b"/x/7"),
        AddressCase([b"a/", b"p/", b"s/", b"r/"], b"$Number$", b"a/p/s/r/7"),
        AddressCase([b"HTTP://h/", b"", b"s/", b""], b"0", b"HTTP://h/s/0"),
        AddressCase(
            [b"http://h/", b"p/", b"", b"r/"],
            b"$Time$",
            b"http://h/p/r/20",
        ),
        AddressCase(
            [b"http://h/", b"https://k/", b"s/", b""],
            b"0",
            b"https://k/s/0",
        ),
        AddressCase([b"a/", b"p/", b"https://k/", b"r/"], b"0", b"https://k/r/0"),
        AddressCase(
            [b"http://h/", b"http://i/", b"s/", b"http://k/"],
            b"0",
            b"http://k/0",
        ),
        AddressCase(
            [b"http://h/", b"p/", b"s/", b"https://k/"],
            b"http://m/0",
            b"http://m/0",
        ),
        AddressCase(
            [b"http://h/", b"p/", b"s/", b"r/"],
            b"$RepresentationID$://m/",
            b"http://m/",
        ),
        AddressCase(
            [b"a/", b"", b"", b""],
            b"$RepresentationID$s:/m/",
            b"a/https:/m/",
        ),
    ];
    for case in &cases {
        assert!(rt; joins_to(*case));
    }
}

// The answer, the mark and the bytes of an address of five bytes.
fn fits(
    size: usize,
    used: usize,
    answer: Result<(), ExpandFault>,
    moved: usize,
    left: [u8; 6],
) -> bool {
    let parts = Parts {
        mpd: Some(b"ab"),
        period: None,
        set: Some(b"c"),
        representation: None,
        template: b"$RepresentationID$$Number$",
        id: b"d",
        bandwidth: 5,
    };
    let mut bytes = *b"......";
    let mut mark = Mark { used };
    let answered = put_address(&mut bytes[0..size.min(6)], &mut mark, &parts, 7, 20);
    answered == answer && mark.used == moved && bytes == left
}

#[test]
fn outputs(rt: HostRuntime) {
    let full = Err(ExpandFault::NoRoom(NoRoom));
    assert!(rt; fits(0, 0, full, 0, *b"......"));
    assert!(rt; fits(1, 0, full, 0, *b"a....."));
    assert!(rt; fits(4, 0, full, 0, *b"abcd.."));
    assert!(rt; fits(5, 0, Ok(()), 5, *b"abcd7."));
    assert!(rt; fits(6, 1, Ok(()), 6, *b".abcd7"));
    assert!(rt; fits(6, 2, full, 2, *b"..abcd"));
    assert!(rt; fits(6, 6, full, 6, *b"......"));
    assert!(rt; fits(6, 9, full, 9, *b"......"));
}

// A long id a thousand times into four bytes, and a template that breaks behind it.
#[test]
fn long_id(rt: HostRuntime) {
    let name = *b"$RepresentationID$";
    let id = [b'x'; 60000];
    let mut template = [0u8; 18000];
    for (i, byte) in template.iter_mut().enumerate() {
        *byte = name[i % 18];
    }
    let mut bytes = *b".....";
    let mut mark = Mark { used: 1 };
    let full = Err(ExpandFault::NoRoom(NoRoom));
    let values = Values {
        id: &id,
        bandwidth: 5,
        number: 7,
        time: 20,
    };
    assert_eq!(rt;
        put_expanded(&mut bytes, &mut mark, &template, values),
        full
    );
    assert_eq!(rt; mark.used, 1);
    assert_eq!(rt; bytes, *b".xxxx");
    template[17999] = b'-';
    let broken = Err(ExpandFault::Broken);
    assert_eq!(rt;
        put_expanded(&mut bytes, &mut mark, &template, values),
        broken
    );
    assert_eq!(rt; mark.used, 1);
    assert_eq!(rt; bytes, *b".xxxx");
}
