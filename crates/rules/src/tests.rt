// The checker on a small manifest.
use crate::{CheckFault, Finding, Rule, check};
use tables::{Attribute, Element, Row, Span, Table};
use tree::Tree;

const MANIFEST: &[u8] = b"<MPD type=\"dynamic\"><Period/></MPD>";

const ELEMENTS: [Element; 2] = [
    Element {
        name: Span { at: 1, len: 3 },
        parent: 0,
        level: 1,
        text: Span { at: 20, len: 0 },
    },
    Element {
        name: Span { at: 21, len: 6 },
        parent: 0,
        level: 2,
        text: Span { at: 29, len: 0 },
    },
];

const ATTRIBUTES: [Attribute; 1] = [Attribute {
    element: 0,
    name: Span { at: 5, len: 4 },
    value: Span { at: 11, len: 7 },
}];

const FOUND: &[Finding] = &[
    Finding {
        rule: Some(Rule::DynamicUnanchored),
        element: 0,
    },
    Finding {
        rule: Some(Rule::NoDurationNorUpdate),
        element: 0,
    },
    Finding {
        rule: Some(Rule::NoMaxSegmentDuration),
        element: 0,
    },
];

fn tree() -> Tree<'static, 'static> {
    Tree {
        manifest: MANIFEST,
        elements: &ELEMENTS,
        attributes: &ATTRIBUTES,
    }
}

#[test]
fn a_dynamic_mpd_that_says_nothing_else(rt: HostRuntime) {
    let mut rows = [Finding::zeroed(); 4];
    let mut table = Table::new(&mut rows);
    assert_eq!(rt; check(&tree(), &mut table), Ok(()));
    assert_eq!(rt; table.rows(), FOUND);
}

#[test]
fn findings_that_do_not_fit(rt: HostRuntime) {
    let mut rows = [Finding::zeroed(); 2];
    let mut table = Table::new(&mut rows);
    assert_eq!(rt;
        check(&tree(), &mut table).map_err(CheckFault::number),
        Err(18)
    );
    assert_eq!(rt; table.len(), 0);
}
