// What a table asks of its rows, and its refusal.
ghost use Rattle.std.specs.Prelude.{◌≡◌};

// A kind of row. Its zero row is what an unused row of a table holds. `Default` would not do: it says that a value is
// a default one, and the contracts could not name it.
pub trait Row: Copy {
    ghost zero: { Self };

    fn zeroed() -> Self
        ensures { result ≡ zero };
}

// Every row of the table is used.
#[derive(Clone, Copy, Debug, PartialEq, Eq)]
pub struct Full;
