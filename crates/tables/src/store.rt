// A table: the caller's rows, and how many of them are used.
ghost use Rattle.std.specs.Prelude.{◌≤◌, length};

mod calls;

// Takes rows in order. The rows in use are the first ones of the caller's slice: there is no heap, so a slice with a
// count, and no vector.
#[derive(Drop)]
pub struct Table<'a, R> {
    rows: &'a mut [R],
    used: usize,
    ghost fits: { used ≤ length rows.now },
}
