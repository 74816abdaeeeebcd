ghost use Rattle.std.specs.Prelude.{◌≡◌, ◌↔◌, IfOk, IsErr, IsPermutation};
ghost use Rattle.gp_clause.specs.Clause.{IsRising, NamesTwice};
ghost use Rattle.gp_clause.specs.Kind.{bound_of};

use gp_clause::{BadClause, Clause, Edge, Kind, Lit};

/// As `Clause::of`.
pub fn clause_of(lits: Vec<Lit>) -> Result<Clause, BadClause>
    ensures bad { IsErr result ↔ NamesTwice lits.items }
    ensures sorted { IfOk result (λ clause. IsPermutation lits.items clause) }
    ensures rising { IfOk result IsRising }
{
    Clause::of(lits)
}

/// As `Kind::bound`.
pub fn bound(kind: Kind, positive: bool) -> Option<Edge>
    ensures { result ≡ bound_of kind positive }
{
    kind.bound(positive)
}
