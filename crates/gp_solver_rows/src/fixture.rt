ghost use Rattle.std.specs.Prelude.{◌≡◌, IsTrue, All, length};
ghost use Rattle.gp_clause.specs.Clause.{NamesBelow, NamesOnce};
ghost use Rattle.gp_clause.specs.Edge.{Keeps, IsSolvable};
ghost use Rattle.gp_clause.specs.Problem.{IsValidKind, IsValidEdge, IsValidProblem, IsValidQuery};
ghost use Rattle.gp_difference.specs.Places.{place_at};

use gp_base::Row;
use gp_clause::{Clause, Edge, Kind, Lit, Problem, Query};
use gp_difference::keeps;
use std::alloc::{AllocError, Global};
use std::process::Abort;

/// The literal that a number spells: its variable plus one, with a minus where it is negated.
pub fn lit(word: i32) -> Lit {
    Lit {
        variable: word.unsigned_abs().saturating_sub(1),
        positive: word > 0,
    }
}

pub fn lits_of(alloc: Global, words: &[i32]) -> Result<Vec<Lit>, AllocError> {
    let mut lits = Vec::new(alloc);
    for word in words {
        lits.push(lit(*word))?;
    }
    Ok(lits)
}

/// The clause of the literals that the numbers spell.
pub fn clause_of(rt: &impl Abort, alloc: Global, words: &[i32]) -> Clause {
    let lits = lits_of(alloc, words).expect(rt, "memory");
    Clause::of(lits).expect(rt, "a clause")
}

/// Whether these are the literals that the numbers spell.
pub fn are_lits(lits: &[Lit], words: &[i32]) -> bool {
    lits.len() == words.len() && lits.iter().zip(words).all(|(one, word)| *one == lit(*word))
}

/// Points, kinds, edges and clauses, each clause as the numbers of its literals.
#[derive(Drop, Clone, Copy)]
pub struct Rows<'a> {
    pub points: u32,
    pub kinds: &'a [Kind],
    pub edges: &'a [Edge],
    pub clauses: &'a [&'a [i32]],
}

/// Three free variables.
pub const FREE: [Kind; 3] = [Kind::Free, Kind::Free, Kind::Free];

/// Every clause of three literals over three variables. No valuation meets them all.
pub const EIGHT: [&[i32]; 8] = [
    &[1, 2, 3],
    &[1, 2, -3],
    &[1, -2, 3],
    &[1, -2, -3],
    &[-1, 2, 3],
    &[-1, 2, -3],
    &[-1, -2, 3],
    &[-1, -2, -3],
];

pub fn clauses_of(rt: &impl Abort, alloc: Global, clauses: &[&[i32]]) -> Row<Clause> {
    let mut all = Row::new(alloc);
    for words in clauses {
        all.push(clause_of(rt, alloc, words)).expect(rt, "memory");
    }
    all
}

pub fn row_of<T: Copy + Drop>(rt: &impl Abort, alloc: Global, all: &[T]) -> Row<T> {
    Row::from_vec(Vec::from_slice(alloc, all).expect(rt, "memory"))
}

pub fn problem_of(rt: &impl Abort, alloc: Global, rows: &Rows) -> Problem {
    Problem {
        points: rows.points,
        kinds: row_of(rt, alloc, rows.kinds),
        edges: row_of(rt, alloc, rows.edges),
        clauses: clauses_of(rt, alloc, rows.clauses),
    }
}

pub fn query_of(rt: &impl Abort, alloc: Global, locals: &[Kind], assumed: &[i32]) -> Query {
    Query {
        locals: row_of(rt, alloc, locals),
        assumed: Row::from_vec(lits_of(alloc, assumed).expect(rt, "memory")),
    }
}

fn is_kind(points: u32, kind: Kind) -> bool
    ensures { IsTrue result → IsValidKind points kind }
{
    match kind {
        Kind::Free => true,
        Kind::Order { a, b } => a < points && b < points && a != b,
        Kind::Span { a, b, c } => a < points && b < points && c <= 4095,
    }
}

fn are_kinds(points: u32, kinds: &[Kind]) -> bool
    ensures { IsTrue result → All (IsValidKind points) kinds.now }
{
    kinds.iter().all(|kind| is_kind(points, *kind))
}

fn is_edge(points: u32, edge: Edge) -> bool
    ensures { IsTrue result → IsValidEdge points edge }
{
    edge.a < points && edge.b < points && edge.c >= -4095 && edge.c <= 4095
}

fn are_edges(points: u32, edges: &[Edge]) -> bool
    ensures { IsTrue result → All (IsValidEdge points) edges.now }
{
    edges.iter().all(|edge| is_edge(points, *edge))
}

pub fn are_named(variables: usize, lits: &[Lit]) -> bool
    ensures { IsTrue result → NamesBelow variables lits.now }
{
    lits.iter().all(|lit| (lit.variable as usize) < variables)
}

fn are_clauses(variables: usize, clauses: &[Clause]) -> bool
    ensures { IsTrue result → All (NamesBelow variables) clauses.now }
{
    clauses
        .iter()
        .all(|clause| are_named(variables, clause.lits()))
}

/// Whether the problem may be asked about.
pub fn is_valid(problem: &Problem) -> bool
    ensures { IsTrue result → IsValidProblem problem.now }
{
    problem.points <= 65536
        && problem.kinds.len() < 1 << 30
        && problem.clauses.len() < 1 << 30
        && are_kinds(problem.points, problem.kinds.as_slice())
        && are_edges(problem.points, problem.edges.as_slice())
        && are_clauses(problem.kinds.len(), problem.clauses.as_slice())
}

fn is_once(lits: &[Lit]) -> bool
    ensures { IsTrue result → NamesOnce lits.now }
{
    lits.is_sorted_by(|a, b| a.variable < b.variable)
}

/// Whether a query may be asked of a problem.
pub fn is_asked(problem: &Problem, query: &Query) -> bool
    requires { IsValidProblem problem.now }
    ensures { IsTrue result → IsValidQuery problem.now query.now }
{
    if query.locals.len() >= 1 << 30 {
        return false;
    }
    if !are_kinds(problem.points, query.locals.as_slice()) {
        return false;
    }
    let variables = problem.kinds.len() + query.locals.len();
    if !are_named(variables, query.assumed.as_slice()) {
        return false;
    }
    is_once(query.assumed.as_slice())
}

pub fn are_kept(places: &[i64], edges: &[Edge]) -> bool
    ensures { IsTrue result → All (Keeps (place_at places.now)) edges.now }
{
    edges.iter().all(|edge| keeps(places, *edge))
}

/// Whether these places show that the edges can be kept.
pub fn is_solvable(places: &[i64], edges: &[Edge]) -> bool
    ensures { IsTrue result → IsSolvable edges.now }
{
    are_kept(places, edges)
}
