// A head.
ghost use Rattle.std.specs.Prelude.{◌≡◌, None};

mod calls;

pub use calls::FINEST;

// Stands at a place of a timeline, or nowhere. It does not hold the timeline: each call takes the one to work on.
// The timescale is in ticks per second, and no call changes it.
#[derive(Clone, Copy)]
pub struct Head {
    timescale: u32,
    place: Option<u32>,
}

impl Head {
    pub fn new(timescale: u32) -> Head
        ensures timescale { result.timescale ≡ timescale }
        ensures place { result.place ≡ None }
    {
        Head {
            timescale,
            place: None,
        }
    }

    pub fn place(&self) -> Option<u32>
        ensures { result ≡ self.now.place }
    {
        self.place
    }

    pub fn timescale(&self) -> u32
        ensures { result ≡ self.now.timescale }
    {
        self.timescale
    }
}
