// Values that may be absent. Each reader has its own type and promise, so there are three; each is one call of the library.
ghost use Rattle.std.specs.Prelude.{◌≡◌};
ghost use Rattle.std.specs.Option.{option_map};
ghost use Rattle.values.specs.Duration.{duration_of};
ghost use Rattle.values.specs.Given.{given};
ghost use Rattle.values.specs.Repeat.{repeat_of};
ghost use Rattle.values.specs.Whole.{whole_in};

use crate::{ValueFault, duration, repeat, whole};

// The whole number from `low` to `high` that the text is, if there is one.
pub fn whole_if(text: Option<&[u8]>, low: u64, high: u64) -> Result<Option<u64>, ValueFault>
    ensures { result ≡ given (whole_in low high) (option_map (λ x. x.now) text.entry) }
{
    text.map(|text| whole(text, low, high)).transpose()
}

// The repeat count that the text is, if there is one.
pub fn repeat_if(text: Option<&[u8]>) -> Result<Option<i32>, ValueFault>
    ensures { result ≡ given repeat_of (option_map (λ x. x.now) text.entry) }
{
    text.map(repeat).transpose()
}

// The milliseconds of the duration that the text is, if there is one.
pub fn duration_if(text: Option<&[u8]>) -> Result<Option<u64>, ValueFault>
    ensures { result ≡ given duration_of (option_map (λ x. x.now) text.entry) }
{
    text.map(duration).transpose()
}
