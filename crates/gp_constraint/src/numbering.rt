ghost use Rattle.std.specs.Prelude.{◌≡◌, ◌≤◌, ◌++◌, [], length, IfOk, IfSome, OnOk, MatchOption};
ghost use Rattle.std.specs.List.{insert};
ghost use Rattle.gp_constraint.specs.Numbering.{lits_onto, names_after, names_of, numbered, with_lit};
ghost use Rattle.gp_constraint.specs.Signed.{AreSigned};

use crate::naming::Names;
use crate::symbol::SymbolicLit;
use gp_base::Row;
use gp_clause::{Clause, Lit};
use std::alloc::{AllocError, Global};
use std::marker::Model;

/// Literals in their places. A literal of a greater variable than all before, as a fresh symbol has, goes to the end
/// without a search.
#[derive(Drop)]
struct Placed {
    lits: Vec<Lit>,
    /// Above all variables.
    above: u64,
}

impl Model for Placed {
    ghost use Rattle.std.specs.Prelude.{List};
    ghost use Rattle.gp_clause.specs.declared.lit.Lit.{Lit};
    ghost use Rattle.gp_constraint.specs.Placed.{AreBelow};

    ghost Value = { List Lit };

    ghost view = { λ placed. placed.lits.items };

    ghost invariant = { λ placed. AreBelow placed.above placed.lits.items };
}

impl Placed {
    fn new(alloc: Global) -> Placed
        ensures { result ≡ [] }
    {
        Placed {
            lits: Vec::new(alloc),
            above: 0,
        }
    }

    fn put(&mut self, lit: Lit) -> Result<(), AllocError>
        ensures { OnOk result (self.new ≡ with_lit self.old lit) }
    {
        if u64::from(lit.variable) >= self.above {
            self.above = u64::from(lit.variable) + 1;
            self.lits.push(lit)?;
            return Ok(());
        }
        if let Some(index) = place(self.lits.as_slice(), lit) {
            self.lits.insert(index, lit)?;
        }
        Ok(())
    }

    fn into_vec(self) -> Vec<Lit>
        ensures { result.items ≡ self }
    {
        let Placed { lits, above: _ } = self;
        lits
    }
}

/// Where a literal goes, unless it is there.
fn place(lits: &[Lit], lit: Lit) -> Option<usize>
    ensures place { MatchOption result (with_lit lits.now lit ≡ lits.now) (λ i. with_lit lits.now lit ≡ insert lits.now i lit) }
    ensures within { IfSome result (λ i. i ≤ length lits.now) }
{
    for (i, other) in lits.iter().enumerate() {
        if lit.variable < other.variable {
            return Some(i);
        }
        if lit == *other {
            return None;
        }
    }
    Some(lits.len())
}

/// The literals of a clause by their variables, in their places.
fn number_lits(
    alloc: Global,
    names: &mut Names,
    clause: &[SymbolicLit],
) -> Result<Vec<Lit>, AllocError>
    ensures lits { IfOk result (λ lits. lits.items ≡ lits_onto [] names.old clause.now) }
    ensures names { OnOk result (names.new ≡ names_after names.old clause.now) }
{
    let mut lits = Placed::new(alloc);
    for lit in clause {
        let variable = names.number(lit.symbol)?;
        lits.put(Lit {
            variable,
            positive: lit.positive,
        })?;
    }
    Ok(lits.into_vec())
}

/// Clauses by their variables, each sorted.
pub fn number_clauses(
    alloc: Global,
    names: &mut Names,
    clauses: &[Row<SymbolicLit>],
) -> Result<Row<Clause>, AllocError>
    requires { AreSigned clauses.now }
    ensures clauses { IfOk result (λ row. row ≡ numbered names.old clauses.now) }
    ensures names { OnOk result (names.new ≡ names_of names.old clauses.now) }
{
    let mut row = Row::new(alloc);
    number_onto(alloc, &mut row, names, clauses)?;
    Ok(row)
}

/// Puts clauses by their variables, each sorted, behind others.
pub fn number_onto(
    alloc: Global,
    row: &mut Row<Clause>,
    names: &mut Names,
    clauses: &[Row<SymbolicLit>],
) -> Result<(), AllocError>
    requires { AreSigned clauses.now }
    ensures clauses { OnOk result (row.new ≡ row.old ++ numbered names.old clauses.now) }
    ensures names { OnOk result (names.new ≡ names_of names.old clauses.now) }
{
    for clause in clauses {
        let lits = number_lits(alloc, names, clause.as_slice())?;
        row.push(Clause::of_rising(lits))?;
    }
    Ok(())
}
