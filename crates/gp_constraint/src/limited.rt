ghost use Rattle.std.specs.Prelude.{◌≡◌, ◌+◌, ◌≤◌, ◌<◌, ◌++◌, ◌∷◌, [], Err, IfOk, length};
ghost use Rattle.gp_constraint.specs.Limited.{IsAdded};
ghost use Rattle.gp_constraint.specs.Terms.{simplified};

use crate::fault::{Full, MOST_CLAUSES};
use crate::symbol::SymbolicLit;
use crate::term::{Term, has_always, is_always, lits_of, push_lit};
use gp_base::Row;
use std::alloc::Global;
use std::marker::Model;

/// Clauses over symbols that are put behind so many others. Together they are at most 500,000.
#[derive(Drop)]
pub struct LimitedClauses {
    alloc: Global,
    before: usize,
    clauses: Row<Row<SymbolicLit>>,
}

impl Model for LimitedClauses {
    ghost use Rattle.std.specs.Prelude.{◌+◌, ◌≤◌, length};
    ghost use Rattle.gp_constraint.specs.Limited.{LimitedForm};

    ghost Value = { LimitedForm };

    ghost view = { λ limited. record { before = limited.before; clauses = limited.clauses } };

    ghost invariant = { λ limited. limited.before + length limited.clauses ≤ 500000 };
}

impl LimitedClauses {
    /// No clause yet, behind no others.
    pub fn new(alloc: Global) -> LimitedClauses
        ensures { result ≡ record { before = 0; clauses = [] } }
    {
        LimitedClauses {
            alloc,
            before: 0,
            clauses: Row::new(alloc),
        }
    }

    /// No clause yet, behind so many others.
    pub fn behind(alloc: Global, before: usize) -> Result<LimitedClauses, Full>
        ensures ok { IfOk result (λ limited. limited ≡ record { before = before; clauses = [] }) }
        ensures full { result ≡ Err Full.TooMany → 500000 < before }
    {
        if before > MOST_CLAUSES {
            return Err(Full::TooMany);
        }
        Ok(LimitedClauses {
            alloc,
            before,
            clauses: Row::new(alloc),
        })
    }

    /// Adds the clause of these terms, where there is one.
    pub fn add(&mut self, terms: &[Term]) -> Result<(), Full>
        ensures { IsAdded result self.old self.new (simplified terms.now) }
    {
        if has_always(terms) {
            return Ok(());
        }
        let lits = lits_of(self.alloc, terms)?;
        self.push(lits)
    }

    /// Adds the clause of the guards and one more term, where there is one.
    pub fn add_guarded(&mut self, guards: &[Term], term: Term) -> Result<(), Full>
        ensures { IsAdded result self.old self.new (simplified (guards.now ++ term ∷ [])) }
    {
        if has_always(guards) {
            return Ok(());
        }
        if is_always(term) {
            return Ok(());
        }
        let mut lits = lits_of(self.alloc, guards)?;
        push_lit(&mut lits, term)?;
        self.push(lits)
    }

    /// Adds a clause, where there is room.
    fn push(&mut self, clause: Row<SymbolicLit>) -> Result<(), Full>
        ensures { IsAdded result self.old self.new (clause ∷ []) }
    {
        if self.before + self.clauses.len() >= MOST_CLAUSES {
            return Err(Full::TooMany);
        }
        self.clauses.push(clause)?;
        Ok(())
    }

    pub fn clauses(&self) -> &[Row<SymbolicLit>]
        ensures clauses { result.now ≡ self.now.clauses }
        ensures few { self.now.before + length self.now.clauses ≤ 500000 }
    {
        self.clauses.as_slice()
    }

    pub fn into_row(self) -> Row<Row<SymbolicLit>>
        ensures clauses { result ≡ self.clauses }
        ensures few { self.before + length result ≤ 500000 }
    {
        let LimitedClauses {
            alloc: _,
            before: _,
            clauses,
        } = self;
        clauses
    }
}
