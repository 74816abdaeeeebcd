ghost use Rattle.std.specs.Prelude.{◌≡◌, ◌<◌, ◌≤◌, ◌↔◌, length, ◌==◌, IsErr, IfOk, MatchBool, IsTrue, IsPermutation};
ghost use Rattle.std.specs.List.{IsAllAdjacentAnswer};
ghost use Rattle.std.specs.Cmp.Lexicographic.{pointwise};
ghost use Rattle.gp_clause.specs.Lit.{lit_eq};
ghost use Rattle.gp_clause.specs.Clause.{IsRising, NamesBelow, NamesTwice, TrueOrFalse};
ghost use Rattle.gp_clause.specs.Counting.{ClausesAreFew};

use crate::lit::Lit;
use std::alloc::AllocError;
use std::marker::Model;
use thiserror::Error;

/// A variable stands in two of the literals.
#[derive(Debug, Clone, Copy, PartialEq, Eq, Error)]
#[error("a variable stands twice in a clause")]
pub struct BadClause;

/// Literals in order of their variables, none of which stands twice. It is true where one of them is.
#[derive(Drop)]
pub struct Clause {
    lits: Vec<Lit>,
}

impl Model for Clause {
    ghost use Rattle.std.specs.Prelude.{List};
    ghost use Rattle.gp_clause.specs.declared.lit.Lit.{Lit};
    ghost use Rattle.gp_clause.specs.Clause.{IsRising};

    ghost Value = { List Lit };

    ghost view = { λ c. c.lits.items };

    ghost invariant = { λ c. IsRising c.lits.items };
}

impl Clause {
    /// Sorts the literals in place and takes no memory.
    pub fn of(lits: Vec<Lit>) -> Result<Clause, BadClause>
        ensures bad { IsErr result ↔ NamesTwice lits.items }
        ensures sorted { IfOk result (λ clause. IsPermutation lits.items clause) }
        ensures rising { IfOk result IsRising }
    {
        let mut lits = lits;
        lits.sort_unstable_by_key(|lit| lit.variable);
        if !is_rising(lits.as_slice()) {
            return Err(BadClause);
        }
        Ok(Clause { lits })
    }

    /// The clause of literals whose variables rise already. Takes no memory.
    pub fn of_rising(lits: Vec<Lit>) -> Clause
        requires { IsRising lits.items }
        ensures { result ≡ lits.items }
    {
        Clause { lits }
    }

    pub fn lits(&self) -> &[Lit]
        ensures lits { result.now ≡ self.now }
        ensures rising { IsRising self.now }
    {
        self.lits.as_slice()
    }

    pub fn len(&self) -> usize
        ensures { result ≡ length self.now }
    {
        self.lits.len()
    }

    pub fn is_empty(&self) -> bool
        ensures { result ≡ (length self.now == 0) }
    {
        self.lits.is_empty()
    }

    /// Takes no memory.
    pub fn into_vec(self) -> Vec<Lit>
        ensures lits { result.items ≡ self }
        ensures rising { IsRising self }
    {
        let Clause { lits } = self;
        lits
    }
}

impl Clone for Clause {
    ghost is_clone = { λ clause copy. copy ≡ clause };

    fn clone(&self) -> Result<Clause, AllocError> {
        let copy = Vec::from_slice(*self.lits.allocator(), self.lits.as_slice())?;
        Ok(Clause { lits: copy })
    }
}

impl PartialEq for Clause {
    ghost use Rattle.std.specs.Cmp.{partial_equiv_from_equiv};
    ghost use Rattle.std.specs.Cmp.Lexicographic.{pointwise};
    ghost use Rattle.gp_clause.specs.Lit.{lit_eq};
    ghost use Rattle.gp_clause.specs.LitLaws.{lits_equivalence};

    ghost eq = { pointwise lit_eq };

    ghost laws = { partial_equiv_from_equiv lits_equivalence };

    fn eq(&self, other: &Clause) -> bool
        ensures value { result ≡ pointwise lit_eq self.now other.now }
        ensures same { IsTrue result ↔ (self.now ≡ other.now) }
    {
        self.lits() == other.lits()
    }
}

impl Eq for Clause {
    ghost use Rattle.gp_clause.specs.LitLaws.{lits_equivalence};

    ghost laws = { lits_equivalence };
}

/// A law: either a clause is true, or the negation of each of its literals is.
pub fn true_or_false()
    ensures { TrueOrFalse }
{}

/// A law: clauses over some variables, none of them empty and no two the same, are fewer than three to the power of the
/// number of variables.
pub fn clauses_are_few()
    ensures { ClausesAreFew }
{}

/// Whether each literal has a variable below the number.
pub fn names_below(lits: &[Lit], count: usize) -> bool
    ensures { IsTrue result ↔ NamesBelow count lits.now }
{
    lits.iter().all(|lit| (lit.variable as usize) < count)
}

// Whether each variable is less than the next.
fn is_rising(lits: &[Lit]) -> bool
    ensures { IsAllAdjacentAnswer (λ a b rises. MatchBool rises (a.variable < b.variable) (b.variable ≤ a.variable)) lits.now result }
{
    lits.is_sorted_by(|a, b| a.variable < b.variable)
}
