// The call that turns rows into runs and values.
ghost use Rattle.std.specs.Prelude.{◌≡◌, ◌≤◌, true, false, not, ◌&&◌, [], is_some, IfOk, Some, None, MatchOption, MatchResult};
ghost use Rattle.std.specs.Option.{unwrap_or};
ghost use Rattle.presentation.specs.Lists.{given_by};
ghost use Rattle.tables.specs.Leaving.{Filled};
ghost use Rattle.tables.specs.Rows.{held, capacity};
ghost use Rattle.template.specs.Reading.{broken, stands};
ghost use Rattle.template.specs.declared.Identifier.TheVariants.{Time};
ghost use Rattle.timeline.specs.Runs.{no_run};
ghost use Rattle.tree.specs.Trees.{on};
ghost use Rattle.resolve.specs.Asking.{Measured};
ghost use Rattle.resolve.specs.Outcome.{first_of, Judged, timing, kind_of, kind_by, runs_by, leaving, media_of, texts_with, texts_by, values_with, unaddressed, conditions, IsFirst, outcome, runs_left};
ghost use Rattle.resolve.specs.Values.{texts_of, values_of, defined_by, Whole, AddsUp, meaning, refusal};

use crate::fault::ResolveFault;
use crate::prepared::Prepared;
use crate::preparing::prepare;
use address::Parts;
use chosen::{Positions, base};
use expand::{RunFault, expand};
use joins::joins;
use presentation::{Kind, Plan};
use tables::Table;
use template::{Identifier, holds};
use timeline::{Run, is_too_many};
use tree::Tree;

// How the segments are given, with the runs of the S elements in the table.
fn give(tree: &Tree, prepared: Prepared, runs: &mut Table<Run>) -> Result<Kind, ResolveFault>
    requires { Measured prepared }
    ensures refusal { Judged (on timing tree.now prepared (capacity runs.old)) result }
    ensures kind { IfOk result (λ k. k ≡ on kind_by tree.now prepared) }
    ensures runs { Filled no_run runs.old (on leaving tree.now (first_of (on timing tree.now prepared (capacity runs.old))) (on runs_by tree.now prepared)) runs.new }
    ensures whole { IfOk result (λ k. given_by k prepared.numbers.first prepared.period (held runs.new) ≡ defined_by k prepared.numbers.first prepared.period (held runs.new)) }
{
    runs.clear();
    let numbers = prepared.numbers;
    match (prepared.timeline, numbers.duration) {
        (Some(timeline), None) => {
            expand(
                tree,
                timeline,
                numbers.offset,
                prepared.period,
                numbers.first,
                runs,
            )?;
            Ok(Kind::Written)
        }
        (None, Some(duration)) => {
            if is_too_many(numbers.first, prepared.period.div_ceil(duration)) {
                return Err(ResolveFault::Runs(RunFault::TooMany));
            }
            Ok(Kind::Even(duration))
        }
        _ => Err(ResolveFault::BothOrNeither),
    }
}

// What the addresses are made from, with this template.
fn parts_of<'a>(tree: &Tree<'a, '_>, prepared: &Prepared, media: &'a [u8]) -> Parts<'a>
    ensures { texts_of result ≡ on texts_with tree.now prepared.now media.now }
{
    let chosen = prepared.chosen;
    Parts {
        mpd: base(tree, 0),
        period: base(tree, chosen.period),
        set: base(tree, chosen.set),
        representation: base(tree, chosen.representation),
        template: media,
        id: tree.attribute(chosen.representation, b"id").unwrap_or(&[]),
        bandwidth: prepared.numbers.bandwidth,
    }
}

// Whether the template asks for the time of segments for which none is written.
fn lacks_time(timeline: Option<usize>, media: &[u8]) -> bool
    ensures { result ≡ (not (is_some timeline) && stands Time media.now) }
{
    timeline.is_none() && holds(media, Identifier::Time)
}

// What the addresses are made from, if they can be made.
fn address<'a>(tree: &Tree<'a, '_>, prepared: &Prepared) -> Option<Parts<'a>>
    requires { broken (unwrap_or (on media_of tree.now prepared.now.chosen) []) ≡ false }
    ensures { MatchOption result
        (on unaddressed tree.now prepared.now ≡ true)
        (λ p. (on unaddressed tree.now prepared.now ≡ false) × (texts_of p ≡ on texts_by tree.now prepared.now)) }
{
    let media = prepared.chosen.templated(tree, b"media")?;
    if lacks_time(prepared.timeline, media) {
        return None;
    }
    let parts = parts_of(tree, prepared, media);
    joins(&parts).then_some(parts)
}

// The values with the kind and the parts. At an even duration there is no offset.
fn plan_of<'a>(prepared: Prepared, kind: Kind, parts: Parts<'a>) -> Plan<'a>
    requires { kind ≡ kind_of prepared.timeline prepared.numbers.duration }
    ensures { values_of result ≡ values_with prepared kind (texts_of parts.entry) }
{
    let numbers = prepared.numbers;
    Plan {
        timescale: numbers.timescale,
        first: numbers.first,
        period: prepared.period,
        offset: match kind {
            Kind::Written => numbers.offset,
            Kind::Even(_) => 0,
        },
        kind,
        parts,
    }
}

// Fills the table, in place of what it held, with the runs of the chosen Period and Representation,
// and answers the other values. The positions count from 0, the Representation's through all
// AdaptationSets of the Period. After a refusal the table is empty.
pub fn resolve<'m>(
    tree: &Tree<'m, '_>,
    at: Positions,
    runs: &mut Table<Run>,
) -> Result<Plan<'m>, ResolveFault>
    ensures answer { meaning result ≡ on outcome tree.now at.period at.representation (capacity runs.old) }
    ensures first { IsFirst (on conditions tree.now at.period at.representation (capacity runs.old)) (refusal result) }
    ensures runs { Filled no_run runs.old (on runs_left tree.now at.period at.representation (capacity runs.old)) runs.new }
    ensures sum { IfOk result (λ p. AddsUp (values_of p) (held runs.new)) }
    ensures whole { IfOk result (λ p. Whole p (held runs.new)) }
{
    runs.clear();
    let prepared = prepare(tree, at)?;
    let kind = give(tree, prepared, runs)?;
    let Some(parts) = address(tree, &prepared) else {
        runs.clear();
        return Err(ResolveFault::NoAddress);
    };
    Ok(plan_of(prepared, kind, parts))
}
