ghost use Rattle.std.specs.Prelude.{◌≡◌};
ghost use Rattle.gp_certificate.specs.Lost.{is_lost};

// What a bench had when a level of assumptions was made: how many literals were true, how many of them it had gone through,
// and how many bounds it kept. And whether all that is assumed up to this level is refuted.
#[derive(Clone, Copy, Drop)]
pub(crate) struct Level {
    pub(crate) trail: usize,
    pub(crate) cursor: usize,
    pub(crate) bounds: u32,
    pub(crate) refutes: bool,
}

// Whether the last of some levels refutes.
pub(crate) fn is_lost(levels: &[Level]) -> bool
    ensures { result ≡ is_lost levels.now }
{
    match levels.last() {
        Some(level) => level.refutes,
        None => false,
    }
}
