// The lines of a list of calls.
ghost use Rattle.std.specs.Prelude.{◌≡◌, not};
ghost use Rattle.cue.specs.Lines.{in_line, Bare};

// Whether the byte ends a line. A function of its own and no closure, so that its promise says which byte does.
pub(crate) fn ends_line(byte: &u8) -> bool
    ensures { result ≡ not (in_line byte.now) }
{
    *byte == b'\n'
}

// The line without the CR at its end, if there is one.
pub(crate) fn bare(line: &[u8]) -> &[u8]
    ensures { Bare line.now result.now }
{
    // A match, in which the check sees both cases.
    match line.strip_suffix(b"\r") {
        Some(front) => front,
        None => line,
    }
}
