// The events that truth values and places give in a window, where they answer its constraints.
ghost use Rattle.std.specs.Prelude.{◌≡◌, [], All, IsTrue, length};
ghost use Rattle.gp_clause.specs.Clause.{HoldsAll, HoldsClause};
ghost use Rattle.gp_clause.specs.Edge.{Keeps};
ghost use Rattle.gp_clause.specs.Kind.{KeepsBound, bound_of};
ghost use Rattle.gp_clause.specs.Lit.{HoldsLit};
ghost use Rattle.gp_clause.specs.Valuation.{Meets, place_of, truth_of};
ghost use Rattle.gp_cases.specs.Bounds.{KeepsBelow};
ghost use Rattle.gp_witness.specs.Answered.{SolvesWindow};

use crate::layers::telling::tell;
use gp_base::Row;
use gp_clause::{Clause, Edge, Kind, Lit, Problem, Valuation};
use gp_constraint::Encoded;
use gp_difference::keeps;
use gp_window::Schedule;
use gp_witness::executed_of;
use gp_writer::put_line;
use std::alloc::{AllocError, Global};

fn truth_of(valuation: &Valuation, variable: usize) -> bool
    ensures { result ≡ truth_of valuation.now variable }
{
    let truth = valuation.truth.as_slice();
    truth.get(variable).copied().unwrap_or(false)
}

fn is_true(valuation: &Valuation, lit: Lit) -> bool
    ensures { IsTrue result → HoldsLit (truth_of valuation.now) lit }
{
    truth_of(valuation, lit.variable as usize) == lit.positive
}

fn any_true(valuation: &Valuation, lits: &[Lit]) -> bool
    ensures { IsTrue result → HoldsClause (truth_of valuation.now) lits.now }
{
    lits.iter().any(|lit| is_true(valuation, *lit))
}

fn all_hold(valuation: &Valuation, clauses: &[Clause]) -> bool
    ensures { IsTrue result → HoldsAll (truth_of valuation.now) clauses.now }
{
    for clause in clauses {
        if !any_true(valuation, clause.lits()) {
            return false;
        }
    }
    true
}

fn is_kept(valuation: &Valuation, edge: Edge) -> bool
    ensures { IsTrue result → Keeps (place_of valuation.now) edge }
{
    keeps(valuation.places.as_slice(), edge)
}

fn are_kept(valuation: &Valuation, edges: &[Edge]) -> bool
    ensures { IsTrue result → All (Keeps (place_of valuation.now)) edges.now }
{
    edges.iter().all(|edge| is_kept(valuation, *edge))
}

fn keeps_bound(valuation: &Valuation, kind: Kind, positive: bool) -> bool
    ensures { IsTrue result → KeepsBound (place_of valuation.now) (bound_of kind positive) }
{
    match kind.bound(positive) {
        Some(edge) => is_kept(valuation, edge),
        None => true,
    }
}

// Whether the places keep what each variable says.
fn keep_bounds(valuation: &Valuation, kinds: &[Kind]) -> bool
    ensures { IsTrue result → KeepsBelow valuation.now kinds.now (length kinds.now) }
{
    for variable in 0..kinds.len() {
        if !keeps_bound(valuation, kinds[variable], truth_of(valuation, variable)) {
            return false;
        }
    }
    true
}

// Whether a valuation answers a problem, with nothing asked.
fn is_answer(problem: &Problem, valuation: &Valuation) -> bool
    ensures { IsTrue result → Meets problem.now (record { locals = []; assumed = [] }) valuation.now }
{
    if problem.kinds.len() > valuation.truth.len() {
        return false;
    }
    if valuation.places.len() != problem.points as usize {
        return false;
    }
    if !are_kept(valuation, problem.edges.as_slice()) {
        return false;
    }
    if !all_hold(valuation, problem.clauses.as_slice()) {
        return false;
    }
    keep_bounds(valuation, problem.kinds.as_slice())
}

fn executed(alloc: Global, encoded: &Encoded, valuation: &Valuation) -> Result<Schedule, AllocError>
    requires { SolvesWindow encoded.now valuation.now }
{
    executed_of(alloc, encoded, valuation)
}

// The events that a valuation gives, where it answers the constraints of a window.
fn given_by(
    alloc: Global,
    encoded: &Encoded,
    valuation: &Valuation,
) -> Result<Option<Schedule>, AllocError> {
    let problem = encoded.problem();
    if !is_answer(problem, valuation) {
        return Ok(None);
    }
    Ok(Some(executed(alloc, encoded, valuation)?))
}

/// Tells the events that truth values and places, parted by spaces, give.
pub fn tell_executed(
    alloc: Global,
    out: &mut Vec<u8>,
    encoded: &Encoded,
    words: &str,
) -> Result<(), AllocError> {
    let valuation = valuation_of(alloc, words)?;
    let told = tell_given_by(alloc, out, encoded, &valuation);
    drop(valuation);
    told
}

fn tell_given_by(
    alloc: Global,
    out: &mut Vec<u8>,
    encoded: &Encoded,
    valuation: &Valuation,
) -> Result<(), AllocError> {
    match given_by(alloc, encoded, valuation)? {
        Some(schedule) => {
            let told = put_line(out, b"executed", schedule.events.as_slice());
            drop(schedule);
            told
        }
        None => tell(out, "no answer"),
    }
}

fn valuation_of(alloc: Global, words: &str) -> Result<Valuation, AllocError> {
    let (truth, places) = words.split_once(' ').unwrap_or((words, ""));
    Ok(Valuation {
        truth: truth_in(alloc, truth)?,
        places: places_in(alloc, places)?,
    })
}

fn truth_in(alloc: Global, signs: &str) -> Result<Row<bool>, AllocError> {
    let mut truth = Row::new(alloc);
    for sign in signs.as_bytes() {
        truth.push(*sign == b'+')?;
    }
    Ok(truth)
}

fn places_in(alloc: Global, words: &str) -> Result<Row<i64>, AllocError> {
    let mut places = Row::new(alloc);
    for word in words.split(' ') {
        places.push(word.parse().unwrap_or(0))?;
    }
    Ok(places)
}
