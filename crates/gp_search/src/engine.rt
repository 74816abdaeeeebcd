ghost use Rattle.std.specs.Prelude.{◌≡◌, [], IfOk, OnOk, length};
ghost use Rattle.gp_clause.specs.Problem.{IsValidProblem};
ghost use Rattle.gp_clause.specs.Edge.{IsSolvable};
ghost use Rattle.gp_search.specs.Inside.{IsIdle, IsGraphOf};
ghost use Rattle.gp_search.specs.Moves.{of_clauses};

use gp_clause::{Lit, Problem, keeping_leaves_no_cycle};
use gp_derivation::{LogEntry, Tester};
use gp_difference::{Graph, GraphFault};
use gp_sat::Solver;
use std::alloc::{AllocError, Global};

// The state of a search. The clauses of the solver have the numbers that hints have: those of the problem, and then the
// entries of the log. An entry that rests on the problem alone is marked as pure. A turn begins at a place of the log, and
// learns from another one on; what stands between the two was taken. In it the graph keeps the bounds of so many literals of the trail, the decisions up to a
// level are assumptions, and all assumptions before the next one are true. One tester serves all turns.
#[derive(Drop)]
pub(crate) struct Engine {
    pub(crate) solver: Solver,
    pub(crate) graph: Graph,
    pub(crate) log: Vec<LogEntry>,
    pub(crate) pure: Vec<bool>,
    pub(crate) begins: usize,
    pub(crate) learned: usize,
    pub(crate) asserted: usize,
    pub(crate) assumed: u32,
    pub(crate) next: usize,
    pub(crate) levels: Vec<Level>,
    pub(crate) tester: Tester,
}

// What stood when a level began: how many bounds the graph had, and the place of the next assumption.
#[derive(Clone, Copy)]
pub(crate) struct Level {
    pub(crate) bounds: u32,
    pub(crate) next: usize,
}

// A false clause, and its number where it is one of the solver.
#[derive(Drop)]
pub(crate) struct Conflict {
    pub(crate) lits: Vec<Lit>,
    pub(crate) number: Option<u32>,
}

impl Engine {
    // A state with the clauses of a problem and nothing else.
    pub(crate) fn new(alloc: Global, problem: &Problem) -> Result<Engine, AllocError>
        requires valid { IsValidProblem problem.now }
        requires solvable { IsSolvable problem.now.edges }
        ensures idle { IfOk result (IsIdle problem.now) }
        ensures empty { IfOk result (λ engine. engine.log.items ≡ []) }
    {
        let solver = attached(alloc, problem)?;
        match graph_and_tester(alloc, problem) {
            Ok((graph, tester)) => Ok(Engine {
                solver,
                graph,
                log: Vec::new(alloc),
                pure: Vec::new(alloc),
                begins: 0,
                learned: 0,
                asserted: 0,
                assumed: 0,
                next: 0,
                levels: Vec::new(alloc),
                tester,
            }),
            Err(error) => {
                drop(solver);
                Err(error)
            }
        }
    }
}

// A solver with the clauses of a problem.
fn attached(alloc: Global, problem: &Problem) -> Result<Solver, AllocError>
    requires { IsValidProblem problem.now }
    ensures { IfOk result (λ solver. solver ≡ of_clauses (length problem.now.kinds) problem.now.clauses) }
{
    let mut solver = Solver::new(alloc, problem.kinds.len() as u32)?;
    match attach_all(&mut solver, problem) {
        Ok(()) => Ok(solver),
        Err(error) => {
            drop(solver);
            Err(error)
        }
    }
}

// Attaches the clauses of a problem to a solver that has no more than its variables.
fn attach_all(solver: &mut Solver, problem: &Problem) -> Result<(), AllocError>
    requires valid { IsValidProblem problem.now }
    requires bare { solver.old ≡ of_clauses (length problem.now.kinds) [] }
    ensures { OnOk result (solver.new ≡ of_clauses (length problem.now.kinds) problem.now.clauses) }
{
    for clause in problem.clauses.as_slice() {
        solver.attach(clause)?;
    }
    Ok(())
}

// A graph with the points and the edges of a problem, and a tester of it.
fn graph_and_tester(alloc: Global, problem: &Problem) -> Result<(Graph, Tester), AllocError>
    requires valid { IsValidProblem problem.now }
    requires solvable { IsSolvable problem.now.edges }
    ensures graph { IfOk result (λ both. IsGraphOf problem.now both.0) }
    ensures bare { IfOk result (λ both. both.0.kept ≡ []) }
    ensures points { IfOk result (λ both. both.1.points ≡ problem.now.points) }
    ensures edges { IfOk result (λ both. both.1.edges ≡ problem.now.edges) }
    ensures lasting { IfOk result (λ both. both.1.lasting ≡ problem.now.kinds) }
{
    let graph = graph(alloc, problem)?;
    match Tester::new(alloc, problem, &[]) {
        Ok(tester) => Ok((graph, tester)),
        Err(error) => {
            drop(graph);
            Err(error)
        }
    }
}

// A graph with the points and the edges of a problem.
fn graph(alloc: Global, problem: &Problem) -> Result<Graph, AllocError>
    requires valid { IsValidProblem problem.now }
    requires solvable { IsSolvable problem.now.edges }
    ensures { IfOk result (λ graph. IsGraphOf problem.now graph × (graph.kept ≡ [])) }
{
    keeping_leaves_no_cycle();
    match Graph::new(alloc, problem.points, problem.edges.as_slice()) {
        Ok(graph) => Ok(graph),
        Err(GraphFault::Memory) => Err(AllocError),
        Err(GraphFault::FixedCycle) => unreachable!(),
    }
}
