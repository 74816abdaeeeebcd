ghost use Rattle.std.specs.Prelude.{◌≡◌, ◌≢◌, ◌+◌, ◌≤◌, ◌<◌, ◌++◌, Err, IfOk, OnOk, MatchResult, length, map, position};
ghost use Rattle.gp_constraint.specs.Base.{clauses_of};
ghost use Rattle.gp_constraint.specs.Encoded.{IsSmall, point_in};
ghost use Rattle.gp_constraint.specs.Extending.{extended_due, extended_of, with_further};
ghost use Rattle.gp_constraint.specs.Numbering.{names_of, numbered};
ghost use Rattle.gp_constraint.specs.Points.{points_of};
ghost use Rattle.gp_constraint.specs.Signed.{AreSigned};
ghost use Rattle.gp_constraint.specs.Symbols.{kind_of, symbol_eq};

use crate::encoded::Encoded;
use crate::family::Family;
use crate::fault::{BaseFault, Full, MOST_CLAUSES};
use crate::limited::LimitedClauses;
use crate::naming::{Names, kinds_of};
use crate::numbering::number_onto;
use crate::numbers::point_in;
use crate::points::Points;
use crate::symbol::{Symbol, SymbolicLit};
use gp_base::Row;
use gp_clause::Problem;
use gp_window::{EventId, Window};
use std::alloc::{AllocError, Global};
use std::marker::Model;

/// A window and its problem with further clauses, with the numbers of its symbols and of its events.
#[derive(Drop)]
pub struct ExtendedProblem {
    window: Window,
    problem: Problem,
    names: Names,
    sizes: Row<u32>,
}

impl Model for ExtendedProblem {
    ghost use Rattle.gp_constraint.specs.Encoded.{IsSmall};
    ghost use Rattle.gp_constraint.specs.Extending.{ExtendedForm};

    ghost Value = { ExtendedForm };

    ghost view = { λ extended. record { window = extended.window; problem = extended.problem; names = extended.names; sizes = extended.sizes } };

    ghost invariant = { λ extended. IsSmall extended.sizes };
}

impl ExtendedProblem {
    pub fn window(&self) -> &Window
        ensures { result.now ≡ self.now.window }
    {
        &self.window
    }

    pub fn problem(&self) -> &Problem
        ensures { result.now ≡ self.now.problem }
    {
        &self.problem
    }

    /// The point of an event, where there is one.
    pub fn point_of(&self, event: EventId) -> Option<u32>
        ensures { result ≡ point_in self.now.sizes event }
    {
        point_in(self.sizes.as_slice(), event)
    }

    /// The variable of a symbol, where some clause names it.
    pub fn variable(&self, symbol: Symbol) -> Option<u32>
        ensures { result ≡ position (symbol_eq symbol) self.now.names }
    {
        self.names.find(symbol)
    }
}

/// The problem of a window with the clauses of a family behind its own, and their symbols numbered after its own.
pub fn extended<F: Family>(
    alloc: Global,
    encoded: Encoded,
    family: &F,
) -> Result<ExtendedProblem, BaseFault>
    ensures { result ≢ Err BaseFault.Memory → result ≡ extended_due encoded (F.clauses family.now encoded) }
{
    match further(alloc, &encoded, family) {
        Ok(more) => {
            let extended = extend(alloc, encoded, more.clauses());
            drop(more);
            Ok(extended?)
        }
        Err(fault) => {
            drop(encoded);
            Err(fault)
        }
    }
}

/// The clauses of a family, behind those that are encoded; or the fault that is due.
pub(crate) fn further<F: Family>(
    alloc: Global,
    encoded: &Encoded,
    family: &F,
) -> Result<LimitedClauses, BaseFault>
    ensures due { MatchResult result (λ more. more.clauses ≡ F.clauses family.now encoded.now) (λ fault. fault ≢ BaseFault.Memory → Err fault ≡ extended_due encoded.now (F.clauses family.now encoded.now)) }
    ensures signed { IfOk result (λ more. AreSigned more.clauses) }
    ensures fits { IfOk result (λ _. length (clauses_of encoded.now) + length (F.clauses family.now encoded.now) ≤ 500000) }
{
    match added(alloc, encoded, family) {
        Ok(more) => Ok(more),
        Err(Full::TooMany) => Err(BaseFault::TooLarge {
            events: u64::from(encoded.problem().points),
            clauses: MOST_CLAUSES as u64 + 1,
        }),
        Err(Full::Memory) => Err(BaseFault::Memory),
    }
}

/// How many clauses a window has that is encoded.
fn count_of(encoded: &Encoded) -> usize
    ensures { result ≡ length (clauses_of encoded.now) }
{
    encoded.problem().clauses.len()
}

pub(crate) fn points_of(alloc: Global, encoded: &Encoded) -> Result<Points, AllocError>
    ensures { IfOk result (λ points. points ≡ points_of encoded.now) }
{
    Points::of(alloc, encoded.window())
}

/// The clauses of a family, behind those that are encoded.
fn added<F: Family>(alloc: Global, encoded: &Encoded, family: &F) -> Result<LimitedClauses, Full>
    ensures clauses { IfOk result (λ more. more.clauses ≡ F.clauses family.now encoded.now) }
    ensures signed { IfOk result (λ more. AreSigned more.clauses) }
    ensures fits { IfOk result (λ _. length (clauses_of encoded.now) + length (F.clauses family.now encoded.now) ≤ 500000) }
    ensures full { result ≡ Err Full.TooMany → 500000 < length (clauses_of encoded.now) + length (F.clauses family.now encoded.now) }
{
    let mut more = LimitedClauses::behind(alloc, count_of(encoded))?;
    let points = points_of(alloc, encoded)?;
    let added = family.add(encoded.window(), &points, &mut more);
    drop(points);
    match added {
        Ok(()) => {
            let _ = more.clauses();
            Ok(more)
        }
        Err(full) => {
            drop(more);
            Err(full)
        }
    }
}

/// Clauses by their variables, behind those that are encoded.
fn extend(
    alloc: Global,
    encoded: Encoded,
    more: &[Row<SymbolicLit>],
) -> Result<ExtendedProblem, AllocError>
    requires { AreSigned more.now }
    ensures { IfOk result (λ extended. extended ≡ extended_of encoded more.now) }
{
    let (window, problem, names, sizes) = encoded.into_parts();
    with_further(alloc, window, problem, names, sizes, more)
}

fn with_further(
    alloc: Global,
    window: Window,
    mut problem: Problem,
    mut names: Names,
    sizes: Row<u32>,
    more: &[Row<SymbolicLit>],
) -> Result<ExtendedProblem, AllocError>
    requires small { IsSmall sizes }
    requires signed { AreSigned more.now }
    ensures { IfOk result (λ extended. extended ≡ with_further window problem names sizes more.now) }
{
    let put = put_further(alloc, &mut problem, &mut names, more);
    let extended = ExtendedProblem {
        window,
        problem,
        names,
        sizes,
    };
    match put {
        Ok(()) => Ok(extended),
        Err(error) => {
            drop(extended);
            Err(error)
        }
    }
}

/// Puts clauses behind those of a problem, by their variables, with the kinds of all variables.
pub(crate) fn put_further(
    alloc: Global,
    problem: &mut Problem,
    names: &mut Names,
    more: &[Row<SymbolicLit>],
) -> Result<(), AllocError>
    requires { AreSigned more.now }
    ensures problem { OnOk result (problem.new ≡ record { points = problem.old.points; kinds = map kind_of (names_of names.old more.now); edges = problem.old.edges; clauses = problem.old.clauses ++ numbered names.old more.now }) }
    ensures names { OnOk result (names.new ≡ names_of names.old more.now) }
{
    number_onto(alloc, &mut problem.clauses, names, more)?;
    problem.kinds = kinds_of(alloc, names.as_slice())?;
    Ok(())
}
