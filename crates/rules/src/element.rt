// What each rule says of one element.
ghost use Rattle.std.specs.Prelude.{◌≡◌, [], Some, codes};
ghost use Rattle.std.specs.Option.{unwrap_or};
ghost use Rattle.std.specs.Str.{bytes_eq};
ghost use Rattle.tree.specs.Trees.{on, value_in};
ghost use Rattle.rules.specs.Broken.{varies, is, has, typed, broken};

use crate::rule::Rule;
use tables::same;
use template::{Identifier, holds};
use tree::Tree;

// Whether the rule is broken at the element in the row. A match, since a rule is also what a finding lists; the tree
// and the row are two parameters, as in the tree's own questions.
pub(crate) fn is_broken(tree: &Tree, row: usize, rule: Rule) -> bool
    ensures { result ≡ on broken tree.now row rule }
{
    match rule {
        Rule::DynamicUnanchored => is_unanchored(tree, row),
        Rule::StaticTimeShift => has_time_shift(tree, row),
        Rule::StaticUnbounded => is_unbounded(tree, row),
        Rule::NoDurationNorUpdate => has_no_end(tree, row),
        Rule::NoMaxSegmentDuration => has_no_longest(tree, row),
        Rule::DurationAndTimeline => is_timed_twice(tree, row),
        Rule::InitializationVaries => has_varying_initialization(tree, row),
        Rule::MediaBroken => has_broken_media(tree, row),
        Rule::AudioWithoutLanguage => is_audio_of_no_language(tree, row),
    }
}

fn is_unanchored(tree: &Tree, row: usize) -> bool
    ensures { result ≡ on broken tree.now row Rule.DynamicUnanchored }
{
    is(tree, row, b"MPD")
        && (is_typed(tree, row, b"dynamic") && !has(tree, row, b"availabilityStartTime"))
}

fn has_time_shift(tree: &Tree, row: usize) -> bool
    ensures { result ≡ on broken tree.now row Rule.StaticTimeShift }
{
    is(tree, row, b"MPD")
        && (is_typed(tree, row, b"static") && has(tree, row, b"timeShiftBufferDepth"))
}

fn is_unbounded(tree: &Tree, row: usize) -> bool
    ensures { result ≡ on broken tree.now row Rule.StaticUnbounded }
{
    is(tree, row, b"MPD")
        && (is_typed(tree, row, b"static") && !has(tree, row, b"mediaPresentationDuration"))
}

fn has_no_end(tree: &Tree, row: usize) -> bool
    ensures { result ≡ on broken tree.now row Rule.NoDurationNorUpdate }
{
    is(tree, row, b"MPD")
        && (!has(tree, row, b"mediaPresentationDuration")
            && !has(tree, row, b"minimumUpdatePeriod"))
}

fn has_no_longest(tree: &Tree, row: usize) -> bool
    ensures { result ≡ on broken tree.now row Rule.NoMaxSegmentDuration }
{
    is(tree, row, b"MPD") && !has(tree, row, b"maxSegmentDuration")
}

fn is_timed_twice(tree: &Tree, row: usize) -> bool
    ensures { result ≡ on broken tree.now row Rule.DurationAndTimeline }
{
    is(tree, row, b"SegmentTemplate")
        && (has(tree, row, b"duration") && tree.child(row, b"SegmentTimeline").is_some())
}

fn has_varying_initialization(tree: &Tree, row: usize) -> bool
    ensures { result ≡ on broken tree.now row Rule.InitializationVaries }
{
    is(tree, row, b"SegmentTemplate") && tree.attribute(row, b"initialization").is_some_and(changes)
}

fn has_broken_media(tree: &Tree, row: usize) -> bool
    ensures { result ≡ on broken tree.now row Rule.MediaBroken }
{
    is(tree, row, b"SegmentTemplate")
        && tree
            .attribute(row, b"media")
            .is_some_and(template::is_broken)
}

fn is_audio_of_no_language(tree: &Tree, row: usize) -> bool
    ensures { result ≡ on broken tree.now row Rule.AudioWithoutLanguage }
{
    is(tree, row, b"AdaptationSet") && (is_audio(tree, row) && !has(tree, row, b"lang"))
}

// Whether the template holds an identifier that changes from segment to segment, before any break.
fn changes(template: &[u8]) -> bool
    ensures { result ≡ varies (Some template.now) }
{
    holds(template, Identifier::Number) || holds(template, Identifier::Time)
}

// Whether the element has that name.
fn is(tree: &Tree, row: usize, name: &[u8]) -> bool
    ensures { result ≡ on is tree.now row name.now }
{
    same(tree.name(row), name)
}

// Whether the element has an attribute of that name, empty or not.
fn has(tree: &Tree, row: usize, name: &[u8]) -> bool
    ensures { result ≡ on has tree.now row name.now }
{
    tree.attribute(row, name).is_some()
}

// Whether the MPD is of that type. One that says none is static.
pub fn is_typed(tree: &Tree, row: usize, sought: &[u8]) -> bool
    ensures { result ≡ on typed tree.now row sought.now }
{
    same(tree.attribute(row, b"type").unwrap_or(b"static"), sought)
}

// Whether the content type is audio.
fn is_audio(tree: &Tree, row: usize) -> bool
    ensures { result ≡ bytes_eq (unwrap_or (value_in tree.now row (codes "contentType")) []) (codes "audio") }
{
    tree.attribute(row, b"contentType")
        .is_some_and(|value| same(value, b"audio"))
}
