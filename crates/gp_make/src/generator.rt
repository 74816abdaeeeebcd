ghost use Rattle.std.specs.Prelude.{◌≡◌, ◌<◌};
ghost use Rattle.gp_make.specs.Draws.{after_draw, drawn};

const MULTIPLIER: u64 = 6_364_136_223_846_793_005;

const INCREMENT: u64 = 1_442_695_040_888_963_407;

/// A linear congruential generator modulo 2^64, which gives the upper bits of its state.
#[derive(Drop)]
pub(crate) struct Generator {
    pub(crate) state: u64,
}

impl Generator {
    /// Draws a number below `bound`.
    pub(crate) fn draw(&mut self, bound: u32) -> u32
        requires { 0 < bound }
        ensures value { result ≡ drawn bound self.old }
        ensures after { self.new ≡ after_draw self.old }
        ensures below { result < bound }
    {
        self.state = self.state.wrapping_mul(MULTIPLIER).wrapping_add(INCREMENT);
        ((self.state >> 33) % u64::from(bound)) as u32
    }
}
