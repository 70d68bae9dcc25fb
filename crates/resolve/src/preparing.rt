// What is asked of the rows before the segments.
ghost use Rattle.std.specs.Prelude.{◌≡◌, ◌≤◌, [], ◌∷◌, ◌++◌, IfOk, IfSome, Some, None, MatchResult};
ghost use Rattle.std.specs.Option.{option_map};
ghost use Rattle.chosen.specs.Choosing.{chosen};
ghost use Rattle.expand.specs.Expanding.{some};
ghost use Rattle.head.specs.Heads.{tick_of};
ghost use Rattle.rules.specs.Findings.{findings};
ghost use Rattle.tree.specs.Trees.{on};
ghost use Rattle.values.specs.Given.{present, whole, duration, ReadsAll};
ghost use Rattle.values.specs.Whole.{whole_in};
ghost use Rattle.resolve.specs.Asking.{if_there, must_be_there, asked, numbers, timeline_asked, Bounded, longest, Measured};
ghost use Rattle.resolve.specs.Outcome.{Judged, admitting, preparing, prepared};

use crate::fault::ResolveFault;
use crate::numbers::Numbers;
use crate::prepared::Prepared;
use chosen::{Chosen, Positions, choose, is_static};
use expand::read_stated;
use head::FINEST;
use periods::{length_of, read_periods};
use rules::{Finding, check};
use tables::Table;
use timeline::LATEST_END;
use tree::Tree;
use values::{ValueFault, duration_if, whole_if};

// The largest number of 32 bits.
const MOST: u64 = u32::MAX as u64;

// Whether any rule is broken: a table without rows takes no finding.
fn breaks_a_rule(tree: &Tree) -> bool
    ensures { result ≡ some (on findings tree.now) }
{
    let mut rows: [Finding; 0] = [];
    let mut table = Table::new(&mut rows);
    check(tree, &mut table).is_err()
}

// The chosen rows of a manifest that may be resolved.
fn admit(tree: &Tree, at: Positions) -> Result<Chosen, ResolveFault>
    ensures refusal { Judged (on admitting tree.now at.period at.representation) result }
    ensures value { IfOk result (λ c. on chosen tree.now at.period at.representation ≡ Some c) }
{
    if breaks_a_rule(tree) {
        return Err(ResolveFault::RuleBroken);
    }
    if !is_static(tree) {
        return Err(ResolveFault::NotStatic);
    }
    choose(tree, at).ok_or(ResolveFault::NotFound)
}

// The S elements of the SegmentTimeline, if there is one.
fn read_timeline(tree: &Tree, timeline: Option<usize>) -> Result<(), ValueFault>
    ensures { ReadsAll (on timeline_asked tree.now timeline) result }
{
    match timeline {
        Some(row) => read_stated(tree, row),
        None => Ok(()),
    }
}

// The whole number from `low` to `high` that the text is, if there is one: `whole_if` in the words of
// what is asked. Without it, all that reads a number would prove these three facts for itself.
fn number_if(text: Option<&[u8]>, low: u64, high: u64) -> Result<Option<u64>, ValueFault>
    ensures asked { ReadsAll (if_there (whole low high) (option_map (λ x. x.now) text.entry) ∷ []) result }
    ensures value { IfOk result (λ o. o ≡ present (whole_in low high) (option_map (λ x. x.now) text.entry)) }
    ensures within { IfOk result (λ o. IfSome o (λ n. (low ≤ n) × (n ≤ high))) }
{
    whole_if(text, low, high)
}

// Reads how long the presentation is, which must be there.
fn read_presentation(text: Option<&[u8]>) -> Result<(), ValueFault>
    ensures { ReadsAll (must_be_there duration (option_map (λ x. x.now) text.entry) ∷ []) result }
{
    duration_if(text)?.ok_or(ValueFault::NoDuration)?;
    Ok(())
}

// Reads all values of the chosen rows in their order. Those that are absent get their defaults here.
#[tactic(auto, using(values::proofs::Presence::unread_append))]
fn read_numbers(tree: &Tree, chosen: &Chosen, position: usize) -> Result<Numbers, ValueFault>
    ensures asked { ReadsAll (on asked tree.now chosen.now position) result }
    ensures value { IfOk result (λ n. n ≡ on numbers tree.now chosen.now) }
    ensures within { IfOk result Bounded }
{
    let timescale = number_if(chosen.templated(tree, b"timescale"), 1, u64::from(FINEST))?;
    let first = number_if(chosen.templated(tree, b"startNumber"), 0, MOST)?;
    let bandwidth = number_if(tree.attribute(chosen.representation, b"bandwidth"), 0, MOST)?;
    read_periods(tree, position)?;
    read_presentation(tree.attribute(0, b"mediaPresentationDuration"))?;
    let duration = number_if(chosen.templated(tree, b"duration"), 1, MOST)?;
    let offset = number_if(
        chosen.templated(tree, b"presentationTimeOffset"),
        0,
        LATEST_END,
    )?;
    read_timeline(tree, chosen.timeline(tree))?;
    Ok(Numbers {
        timescale: timescale.unwrap_or(1) as u32,
        first: first.unwrap_or(1) as u32,
        bandwidth: bandwidth.unwrap_or(0),
        duration,
        offset: offset.unwrap_or(0),
    })
}

// The milliseconds in ticks, rounded down. A head reckons so where it seeks; one call for both would have
// to answer in 128 bits, or nothing outside of its limits.
fn ticks(ms: u64, timescale: u32) -> u64
    requires { (ms ≤ 100000000000) × (timescale ≤ 10000000) }
    ensures value { result ≡ tick_of timescale ms }
    ensures small { result ≤ longest }
{
    ms * u64::from(timescale) / 1000
}

// Chooses the rows and reads all that is asked before the segments.
pub(crate) fn prepare(tree: &Tree, at: Positions) -> Result<Prepared, ResolveFault>
    ensures refusal { Judged (on admitting tree.now at.period at.representation ++ on preparing tree.now at.period at.representation) result }
    ensures value { IfOk result (λ p. p ≡ on prepared tree.now at.period at.representation) }
    ensures within { IfOk result Measured }
{
    let chosen = admit(tree, at)?;
    let numbers = read_numbers(tree, &chosen, at.period)?;
    let ms = length_of(tree, at.period).ok_or(ResolveFault::NoLength)?;
    Ok(Prepared {
        chosen,
        numbers,
        period: ticks(ms, numbers.timescale),
        timeline: chosen.timeline(tree),
    })
}
