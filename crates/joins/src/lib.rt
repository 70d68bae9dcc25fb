// Whether the parts of an address can be joined.
#![tactic(auto)]

ghost use Rattle.std.specs.Prelude.{◌≡◌, ℕ, not, ◌&&◌};
ghost use Rattle.template.specs.Reading.{broken};
ghost use Rattle.address.specs.Expansion.{expanded};
ghost use Rattle.address.specs.Joining.{given_of};
ghost use Rattle.joins.specs.Joints.{blank, some_blank, ends_in_slash, rooted, unfit, unjoinable};
ghost use Rattle.joins.specs.Steps.{lastly, stepped};

use address::{Parts, front, is_absolute};
use template::is_broken;

// What is known of the joined parts so far, which are read from the last one on to the front.
// Each fact is known both before the address begins and after it, so that an enum would repeat them.
#[derive(Clone, Copy)]
struct Walk {
    // the address begins at one of them, so that no part in front of it is joined
    begun: bool,
    // the foremost of them begins with '/'
    slash: bool,
    // they cannot be joined
    misfit: bool,
}

impl Walk {
    // What is known where only the last part was read, the template's expansion: its first bytes say it.
    fn at_template(parts: &Parts) -> Walk
        ensures { result ≡ lastly (expanded parts.now.template.now (given_of parts.now 0 0)) }
    {
        let front = front(parts.template, parts.values(0, 0));
        Walk {
            begun: is_absolute(&front),
            slash: is_rooted(&front),
            misfit: false,
        }
    }

    // What is known where the base URL in front was read too.
    fn step(self, base: Option<&[u8]>) -> Walk
        ensures { result ≡ stepped self base.entry }
    {
        match base {
            Some(text) if !self.begun => Walk {
                begun: is_absolute(text),
                slash: is_rooted(text),
                misfit: is_unfit(text) || self.slash || self.misfit,
            },
            _ => self,
        }
    }
}

// Whether the template is whole, each joined base URL is without blanks and ends in '/', and no joined part
// but the first begins with '/'. What is joined does not hang on the segment.
pub fn joins(parts: &Parts) -> bool
    ensures value { result ≡ (not (broken parts.now.template.now) && not (unjoinable parts.now 0 0)) }
    ensures each { (number time : ℕ) → unjoinable parts.now number time ≡ unjoinable parts.now 0 0 }
{
    if is_broken(parts.template) {
        return false;
    }
    let walk = Walk::at_template(parts)
        .step(parts.representation)
        .step(parts.set)
        .step(parts.period)
        .step(parts.mpd);
    !walk.misfit
}

// Whether the base URL has a blank or does not end in '/'.
fn is_unfit(base: &[u8]) -> bool
    ensures { result ≡ unfit base.now }
{
    has_blank(base) || !ends_in_slash(base)
}

// Whether the text has a space, a tab, a CR or an LF.
fn has_blank(text: &[u8]) -> bool
    ensures { result ≡ some_blank text.now }
{
    text.iter().any(|byte| is_blank(*byte))
}

// The reader has the same test, private to it: a byte's class is decided by a match where the byte is read.
fn is_blank(byte: u8) -> bool
    ensures { result ≡ blank byte }
{
    match byte {
        b' ' | b'\t' | b'\r' | b'\n' => true,
        _ => false,
    }
}

fn ends_in_slash(text: &[u8]) -> bool
    ensures { result ≡ ends_in_slash text.now }
{
    text.ends_with(b"/")
}

// Whether the text starts with '/'.
fn is_rooted(text: &[u8]) -> bool
    ensures { result ≡ rooted text.now }
{
    matches!(text, [b'/', ..])
}
