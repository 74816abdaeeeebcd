ghost use Rattle.std.specs.Prelude.{◌≡◌, ◌<◌, ◌^◌, length};
ghost use Rattle.gp_sharing.specs.Compacted.{sizes_in};
ghost use Rattle.gp_sharing.specs.Moving.{first_own};

use gp_certificate::Step;
use gp_clause::Problem;

/// By what the steps of a window are numbered before any of them moves: how many base clauses, base variables and shared
/// steps it has.
#[derive(Clone, Copy)]
pub struct Sizes {
    pub clauses: u32,
    pub variables: u32,
    pub shared: u32,
}

impl Sizes {
    /// The sizes of a problem and of the steps that its certificates share.
    pub fn of(problem: &Problem, shared: &[Step]) -> Sizes
        requires clauses { length problem.now.clauses < 2 ^ 32 }
        requires variables { length problem.now.kinds < 2 ^ 32 }
        requires shared { length shared.now < 2 ^ 32 }
        ensures { result ≡ sizes_in problem.now shared.now }
    {
        Sizes {
            clauses: problem.clauses.len() as u32,
            variables: problem.kinds.len() as u32,
            shared: shared.len() as u32,
        }
    }

    // The number of a certificate's first own step.
    pub(crate) fn first_own(self) -> u64
        ensures { result ≡ first_own self }
    {
        u64::from(self.clauses) + u64::from(self.shared)
    }
}
