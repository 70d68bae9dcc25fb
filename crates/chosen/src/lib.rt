// The Period and the Representation that are chosen, and what their three levels say.
#![tactic(auto)]

ghost use Rattle.std.specs.Prelude.{◌≡◌};
ghost use Rattle.std.specs.Option.{option_map};
ghost use Rattle.std.specs.List.{slice_get};
ghost use Rattle.tree.specs.Trees.{on};
ghost use Rattle.chosen.specs.Choosing.{is_static, parent_of, is_representation_of, representations_of, chosen_at, chosen, AnswersAt, AnswersInnermost, templated, timeline_in, base_of};

use rules::is_typed;
use tables::same;
use tree::Tree;

// The position of a Period in the manifest and of a Representation in the Period, from 0.
#[derive(Clone, Copy, Debug, PartialEq, Eq)]
pub struct Positions {
    pub period: usize,
    pub representation: usize,
}

impl Positions {
    // The first Period's first Representation.
    pub const FIRST: Positions = Positions {
        period: 0,
        representation: 0,
    };
}

// The rows of a Period, of an AdaptationSet in it and of a Representation in that.
#[derive(Clone, Copy, Debug, PartialEq, Eq)]
pub struct Chosen {
    pub period: usize,
    pub set: usize,
    pub representation: usize,
}

// Whether the root is an MPD that is static. One that states no type is.
pub fn is_static(tree: &Tree) -> bool
    ensures { result ≡ on is_static tree.now }
{
    same(tree.name(0), b"MPD") && is_typed(tree, 0, b"static")
}

// The Period at a position in the root, and the Representation at a position in that Period.
pub fn choose(tree: &Tree, at: Positions) -> Option<Chosen>
    ensures { result ≡ on chosen tree.now at.period at.representation }
{
    let period = tree.nth_child(0, b"Period", at.period)?;
    choose_in(tree, period, at.representation)
}

// The Representation at a position in the Period in the row.
fn choose_in(tree: &Tree, period: usize, position: usize) -> Option<Chosen>
    ensures { result ≡ option_map (on chosen_at tree.now period) (slice_get (on representations_of tree.now period) position) }
{
    let representation = (0..tree.elements.len())
        .filter(|row| is_representation(tree, period, *row))
        .nth(position)?;
    Some(Chosen {
        period,
        set: parent(tree, representation),
        representation,
    })
}

// Whether the row is that of a Representation in an AdaptationSet of the Period.
fn is_representation(tree: &Tree, period: usize, row: usize) -> bool
    ensures { result ≡ on is_representation_of tree.now period row }
{
    let set = parent(tree, row);
    tree.is_child(row, set, b"Representation") && tree.is_child(set, period, b"AdaptationSet")
}

// The row of the parent of the element in the row.
fn parent(tree: &Tree, row: usize) -> usize
    ensures { result ≡ on parent_of tree.now row }
{
    tree.elements.get(row).map_or(0, |element| element.parent)
}

// The base URL of the element in the row.
pub fn base<'a>(tree: &Tree<'a, '_>, row: usize) -> Option<&'a [u8]>
    ensures { option_map (λ x. x.now) result ≡ on base_of tree.now row }
{
    let base = tree.child(row, b"BaseURL")?;
    Some(tree.text(base))
}

// What the element's SegmentTemplate answers; its first one counts.
fn at_level<T: Copy, F: Fn(usize) -> Option<T>>(tree: &Tree, row: usize, ask: &F) -> Option<T>
    requires { F.IsAlwaysCallable ask.now }
    ensures { AnswersAt tree.now (F.post ask.now) row result }
{
    tree.child(row, b"SegmentTemplate").and_then(ask)
}

impl Chosen {
    // An attribute of the template, from the innermost SegmentTemplate that has it.
    pub fn templated<'a>(&self, tree: &Tree<'a, '_>, name: &[u8]) -> Option<&'a [u8]>
        ensures { option_map (λ x. x.now) result ≡ on templated tree.now self.now name.now }
    {
        self.innermost(tree, |template| tree.attribute(template, name))
    }

    // The SegmentTimeline, from the innermost SegmentTemplate that has one.
    pub fn timeline(&self, tree: &Tree) -> Option<usize>
        ensures { result ≡ on timeline_in tree.now self.now }
    {
        self.innermost(tree, |template| tree.child(template, b"SegmentTimeline"))
    }

    // What the innermost SegmentTemplate answers that has an answer.
    fn innermost<T: Copy, F: Fn(usize) -> Option<T>>(&self, tree: &Tree, ask: F) -> Option<T>
        requires { F.IsAlwaysCallable ask }
        ensures { AnswersInnermost tree.now (F.post ask) self.now result }
    {
        // All three levels are asked, since the promise speaks of what each of them answers.
        let inner = at_level(tree, self.representation, &ask);
        let middle = at_level(tree, self.set, &ask);
        let outer = at_level(tree, self.period, &ask);
        inner.or(middle).or(outer)
    }
}
