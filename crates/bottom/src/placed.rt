// A bottom timeline with what its addresses are made from.
ghost use Rattle.std.specs.Prelude.{◌≡◌};
ghost use Rattle.template.specs.Reading.{broken};

use address::Parts;

mod calls;

// The segments of a timeline, each with an address. A broken template has none, so with one there are no segments.
#[derive(Drop)]
pub struct Placed<'a, T> {
    below: T,
    parts: Parts<'a>,
    // The template is broken. It is read once, and kept as a flag beside the timeline below, since that stays what was
    // handed over, and clauses name it.
    torn: bool,
    ghost is: { torn ≡ broken parts.template.now },
}
