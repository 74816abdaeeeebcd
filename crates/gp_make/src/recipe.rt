ghost use Rattle.std.specs.Prelude.{◌≡◌};
ghost use Rattle.gp_make.specs.Run.{windows_of};

/// The most events of a window.
pub(crate) const WINDOW: u32 = 200;

/// The three numbers that determine a recording.
#[derive(Clone, Copy, PartialEq, Eq)]
pub struct Recipe {
    /// The first state of the generator.
    pub seed: u64,
    /// How many threads the program has.
    pub threads: u32,
    /// How many events it does.
    pub events: u32,
}

impl Recipe {
    /// How many windows the recording has.
    pub fn windows(&self) -> u32
        ensures { result ≡ windows_of self.now.events }
    {
        self.events.div_ceil(WINDOW)
    }
}
