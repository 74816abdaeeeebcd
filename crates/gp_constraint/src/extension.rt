ghost use Rattle.std.specs.Prelude.{◌≡◌, ◌≢◌, [], Err, IfOk};
ghost use Rattle.gp_constraint.specs.Extension.{extension_due, extension_of};
ghost use Rattle.gp_constraint.specs.Numbering.{number_of};
ghost use Rattle.gp_constraint.specs.Signed.{AreSigned};

use crate::encoded::Encoded;
use crate::extending::{further, put_further};
use crate::family::Family;
use crate::fault::BaseFault;
use crate::naming::Names;
use crate::symbol::{Symbol, SymbolicLit};
use gp_base::Row;
use gp_clause::{Clause, Edge, Problem};
use std::alloc::{AllocError, Global};
use std::marker::Model;

/// The problem of a window with further clauses, beside the one that the window keeps, and the numbers of its symbols.
#[derive(Drop)]
pub struct Extension {
    problem: Problem,
    names: Names,
}

impl Model for Extension {
    ghost use Rattle.gp_constraint.specs.Extension.{ExtensionForm};

    ghost Value = { ExtensionForm };

    ghost view = { λ extension. record { problem = extension.problem; names = extension.names } };
}

impl Extension {
    pub fn problem(&self) -> &Problem
        ensures { result.now ≡ self.now.problem }
    {
        &self.problem
    }

    /// The variable of a symbol; where no clause names it, the number after those of all variables.
    pub fn number(&self, symbol: Symbol) -> u32
        ensures { result ≡ number_of self.now.names symbol }
    {
        self.names.place(symbol)
    }
}

/// The problem of a window with the clauses of a family behind copies of its own, and their symbols numbered after its own.
pub fn extended_beside<F: Family>(
    alloc: Global,
    encoded: &Encoded,
    family: &F,
) -> Result<Extension, BaseFault>
    ensures { result ≢ Err BaseFault.Memory → result ≡ extension_due encoded.now (F.clauses family.now encoded.now) }
{
    let more = further(alloc, encoded, family)?;
    let extension = beside(alloc, encoded, more.clauses());
    drop(more);
    Ok(extension?)
}

/// Clauses by their variables, behind copies of those that are encoded.
fn beside(
    alloc: Global,
    encoded: &Encoded,
    more: &[Row<SymbolicLit>],
) -> Result<Extension, AllocError>
    requires { AreSigned more.now }
    ensures { IfOk result (λ extension. extension ≡ extension_of encoded.now more.now) }
{
    let mut names = encoded.names().copy(alloc)?;
    let mut problem = copied(alloc, encoded.problem())?;
    let put = put_further(alloc, &mut problem, &mut names, more);
    let extension = Extension { problem, names };
    match put {
        Ok(()) => Ok(extension),
        Err(error) => {
            drop(extension);
            Err(error)
        }
    }
}

/// A copy of a problem, still without the kinds of its variables.
fn copied(alloc: Global, problem: &Problem) -> Result<Problem, AllocError>
    ensures { IfOk result (λ copy. copy ≡ record { points = problem.now.points; kinds = []; edges = problem.now.edges; clauses = problem.now.clauses }) }
{
    let clauses = copied_clauses(alloc, problem.clauses.as_slice())?;
    let edges = copied_edges(alloc, problem.edges.as_slice())?;
    Ok(Problem {
        points: problem.points,
        kinds: Row::new(alloc),
        edges,
        clauses,
    })
}

fn copied_clauses(alloc: Global, clauses: &[Clause]) -> Result<Row<Clause>, AllocError>
    ensures { IfOk result (λ copy. copy ≡ clauses.now) }
{
    Ok(Row::from_vec(Vec::from_clones(alloc, clauses)?))
}

fn copied_edges(alloc: Global, edges: &[Edge]) -> Result<Row<Edge>, AllocError>
    ensures { IfOk result (λ copy. copy ≡ edges.now) }
{
    Ok(Row::from_vec(Vec::from_clones(alloc, edges)?))
}
