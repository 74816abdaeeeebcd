ghost use Rattle.std.specs.Prelude.{IsTrue};
ghost use Rattle.gp_clause.specs.Clause.{NamesBelow};
ghost use Rattle.gp_sat.specs.State.{assigned};
ghost use Rattle.gp_sat.specs.Standing.{IsFalse, Each};
ghost use Rattle.gp_sat.specs.Changes.{HasPresent, IsOfLevel};

use crate::fixture::{are_lits, clause_of, lit};
use gp_clause::{Clause, Lit};
use gp_sat::{Learned, Propagated, Solver};
use std::alloc::Global;
use std::process::Abort;

// Whether a clause names variables of a solver alone.
fn is_named(clause: &Clause, variables: u32) -> bool
    ensures { IsTrue result → NamesBelow variables clause.now }
{
    clause.lits().iter().all(|lit| lit.variable < variables)
}

fn is_false(solver: &Solver, lit: Lit) -> bool
    ensures { IsTrue result → IsFalse (assigned solver.now) lit }
{
    if lit.variable >= solver.variables() {
        return false;
    }
    match solver.value(lit.variable) {
        Some(value) => value != lit.positive,
        None => false,
    }
}

fn are_false(solver: &Solver, lits: &[Lit]) -> bool
    ensures { IsTrue result → Each (IsFalse (assigned solver.now)) lits.now }
{
    for lit in lits {
        if !is_false(solver, *lit) {
            return false;
        }
    }
    true
}

fn is_present(solver: &Solver, lit: Lit) -> bool
    ensures { IsTrue result → IsOfLevel solver.now solver.now.level lit }
{
    if lit.variable >= solver.variables() {
        return false;
    }
    match solver.level_of(lit.variable) {
        Some(level) => level == solver.level(),
        None => false,
    }
}

fn has_present(solver: &Solver, lits: &[Lit]) -> bool
    ensures { IsTrue result → HasPresent solver.now lits.now }
{
    for lit in lits {
        if is_present(solver, *lit) {
            return true;
        }
    }
    false
}

fn attach(rt: &impl Abort, solver: &mut Solver, clause: &Clause) -> u32 {
    assert!(rt; solver.level() == 0);
    assert!(rt; solver.clause_count() < 1_000_000);
    assert!(rt; is_named(clause, solver.variables()));
    solver.attach(clause).expect(rt, "memory")
}

fn decide(rt: &impl Abort, solver: &mut Solver, word: i32) {
    let lit = lit(word);
    match solver.propagate() {
        Propagated::Quiet => {
            assert!(rt; lit.variable < solver.variables());
            assert!(rt; solver.value(lit.variable).is_none());
            solver.decide(lit);
        }
        Propagated::False(number) => assert!(rt; false, "clause {number} is false"),
    }
}

fn conflict_at(rt: &impl Abort, alloc: Global, solver: &Solver, number: u32) -> Vec<Lit> {
    assert!(rt; number < solver.clause_count());
    Vec::from_slice(alloc, solver.clause(number)).expect(rt, "memory")
}

fn analyse(rt: &impl Abort, alloc: Global, solver: &mut Solver, number: u32) -> Learned {
    let conflict = conflict_at(rt, alloc, solver, number);
    assert!(rt; solver.level() > 0);
    assert!(rt; are_false(solver, &conflict));
    assert!(rt; has_present(solver, &conflict));
    solver.analyse(&conflict).expect(rt, "memory")
}

fn analyse_final(rt: &impl Abort, alloc: Global, solver: &mut Solver, number: u32) -> Learned {
    let conflict = conflict_at(rt, alloc, solver, number);
    assert!(rt; are_false(solver, &conflict));
    solver.analyse_final(&conflict).expect(rt, "memory")
}

// Attaches the clause of some literals.
fn attach_lits(rt: &impl Abort, alloc: Global, solver: &mut Solver, words: &[i32]) {
    attach(rt, solver, &clause_of(rt, alloc, words));
}

fn attach_all(rt: &impl Abort, alloc: Global, solver: &mut Solver, clauses: &[&[i32]]) {
    for words in clauses {
        attach_lits(rt, alloc, solver, words);
    }
}

fn is_quiet(solver: &mut Solver) -> bool {
    solver.propagate() == Propagated::Quiet
}

fn is_false_at(solver: &mut Solver, number: u32) -> bool {
    solver.propagate() == Propagated::False(number)
}

fn has_trail(solver: &Solver, words: &[i32]) -> bool {
    are_lits(solver.trail(), words)
}

fn is_next(solver: &mut Solver, variable: Option<u32>) -> bool {
    solver.next_free() == variable
}

// Whether this was learned, with these hints in some order.
fn is_learned(learned: &Learned, words: &[i32], level: u32, hints: &[u32]) -> bool {
    let given = learned.hints.as_slice();
    are_lits(learned.clause.lits(), words)
        && learned.level == level
        && given.len() == hints.len()
        && hints.iter().all(|hint| given.contains(hint))
}

fn go_back(solver: &mut Solver) {
    solver.backjump(0);
}

fn raise(rt: &impl Abort, solver: &mut Solver, variable: u32) {
    assert!(rt; variable < solver.variables());
    solver.raise(variable);
}

fn use_first(rt: &impl Abort, solver: &mut Solver, count: u32) {
    assert!(rt; count <= solver.variables());
    solver.set_used(count);
}

fn clear(solver: &mut Solver) {
    solver.clear();
}

fn retire(rt: &impl Abort, solver: &mut Solver, number: u32) {
    assert!(rt; solver.level() == 0);
    assert!(rt; number < solver.clause_count());
    solver.retire(number);
}

fn grow(rt: &impl Abort, solver: &mut Solver, variables: u32) {
    assert!(rt; solver.variables() <= variables);
    solver.grow(variables).expect(rt, "memory");
}

// Goes back to level 0 with what was learned. Tells whether it is the unit clause of a literal, which is then true.
fn takes_up(rt: &impl Abort, solver: &mut Solver, learned: &Learned, word: i32) -> bool {
    go_back(solver);
    let number = attach(rt, solver, &learned.clause);
    let quiet = is_quiet(solver);
    quiet
        && number == 2
        && learned.level == 0
        && are_lits(learned.clause.lits(), &[word])
        && has_trail(solver, &[word])
}

// Decides the first variable false, learns from the conflict, and goes on with what was learned.
fn goes_on(rt: &impl Abort, alloc: Global, solver: &mut Solver) -> bool {
    attach_all(rt, alloc, solver, &[&[1, 2], &[1, -2]]);
    let quiet = is_quiet(solver);
    decide(rt, solver, -1);
    let fails = is_false_at(solver, 0);
    let learned = analyse(rt, alloc, solver, 0);
    takes_up(rt, solver, &learned, 1) && quiet && fails
}

#[test]
fn learns_a_unit_and_goes_on(rt: HostRuntime) {
    let mut solver = Solver::new(rt.alloc(), 2).expect(&rt, "memory");
    let holds = goes_on(&rt, rt.alloc(), &mut solver);
    drop(solver);
    assert!(rt; holds);
}

// Clauses and decisions, the clause that is false then, and what is learned from it, first and finally.
#[derive(Drop)]
struct Row<'a> {
    clauses: &'a [&'a [i32]],
    decisions: &'a [i32],
    conflict: u32,
    lits: &'a [i32],
    level: u32,
    hints: &'a [u32],
    last: &'a [i32],
}

fn learns_first(rt: &impl Abort, alloc: Global, solver: &mut Solver, row: &Row) -> bool {
    let learned = analyse(rt, alloc, solver, row.conflict);
    is_learned(&learned, row.lits, row.level, row.hints)
}

fn learns_last(rt: &impl Abort, alloc: Global, solver: &mut Solver, row: &Row) -> bool {
    let learned = analyse_final(rt, alloc, solver, row.conflict);
    are_lits(learned.clause.lits(), row.last)
}

fn decide_all(rt: &impl Abort, solver: &mut Solver, words: &[i32]) {
    for word in words {
        decide(rt, solver, *word);
    }
}

fn learns(rt: &impl Abort, alloc: Global, solver: &mut Solver, row: &Row) -> bool {
    attach_all(rt, alloc, solver, row.clauses);
    decide_all(rt, solver, row.decisions);
    let fails = is_false_at(solver, row.conflict);
    let first = learns_first(rt, alloc, solver, row);
    let last = learns_last(rt, alloc, solver, row);
    fails && first && last
}

fn holds(rt: &impl Abort, alloc: Global, row: &Row) -> bool {
    let mut solver = Solver::new(alloc, 4).expect(rt, "memory");
    let holds = learns(rt, alloc, &mut solver, row);
    drop(solver);
    holds
}

fn all_hold(rt: &impl Abort, alloc: Global, rows: &[Row]) -> bool {
    let mut all = true;
    for row in rows {
        all &= holds(rt, alloc, row);
    }
    all
}

#[test]
fn learns_from_conflicts(rt: HostRuntime) {
    const ROWS: [Row; 3] = [
        Row {
            clauses: &[&[-1, -2, 3], &[-2, -3]],
            decisions: &[1, 2],
            conflict: 0,
            lits: &[-1, -2],
            level: 1,
            hints: &[1],
            last: &[-1, -2],
        },
        Row {
            clauses: &[&[-1, 2], &[-2, 3], &[-2, 4], &[-3, -4]],
            decisions: &[1],
            conflict: 3,
            lits: &[-2],
            level: 0,
            hints: &[1, 2],
            last: &[-1],
        },
        Row {
            clauses: &[&[1], &[-1, -2, 3], &[-2, -3]],
            decisions: &[2],
            conflict: 1,
            lits: &[-2],
            level: 0,
            hints: &[2, 0],
            last: &[-2],
        },
    ];
    assert!(rt; all_hold(&rt, rt.alloc(), &ROWS));
}

// Whether the final analysis of a conflict without a decision gives the empty clause, by one clause.
fn is_refuted(
    rt: &impl Abort,
    alloc: Global,
    solver: &mut Solver,
    conflict: u32,
    hint: u32,
) -> bool {
    let last = analyse_final(rt, alloc, solver, conflict);
    last.clause.is_empty() && last.hints.as_slice() == [hint].as_slice()
}

// Finds a false clause, takes everything back, retires the other one, and grows.
fn starts_again(rt: &impl Abort, alloc: Global, solver: &mut Solver) -> bool {
    attach_all(rt, alloc, solver, &[&[1], &[-1]]);
    let fails = is_false_at(solver, 1);
    let refuted = is_refuted(rt, alloc, solver, 1, 0);
    let full = is_next(solver, None);
    clear(solver);
    retire(rt, solver, 0);
    grow(rt, solver, 3);
    let quiet = is_quiet(solver);
    fails && refuted && full && quiet && has_trail(solver, &[-1]) && is_next(solver, Some(1))
}

#[test]
fn clears_retires_and_grows(rt: HostRuntime) {
    let mut solver = Solver::new(rt.alloc(), 1).expect(&rt, "memory");
    let holds = starts_again(&rt, rt.alloc(), &mut solver);
    drop(solver);
    assert!(rt; holds);
}

const PAIRS: i32 = 400_000;

// Attaches a clause for each pair, of its two variables.
fn attach_pairs(rt: &impl Abort, alloc: Global, solver: &mut Solver) {
    for number in 0..PAIRS {
        let first = number.saturating_mul(2).saturating_add(1);
        attach_lits(rt, alloc, solver, &[first, first.saturating_add(1)]);
    }
}

// Whether each pair's second literal is forced by its first one.
fn forces_each(rt: &impl Abort, solver: &mut Solver) -> bool {
    let mut all = true;
    for number in 0..PAIRS {
        let first = number.saturating_mul(2).saturating_add(1);
        decide(rt, solver, -first);
        let quiet = is_quiet(solver);
        let partner = lit(first.saturating_add(1)).variable;
        assert!(rt; partner < solver.variables());
        all = all && quiet && solver.value(partner) == Some(true);
    }
    all
}

fn forces_pairs(rt: &impl Abort, alloc: Global, solver: &mut Solver) -> bool {
    attach_pairs(rt, alloc, solver);
    forces_each(rt, solver)
}

#[test]
fn visits_only_what_watches(rt: HostRuntime) {
    let mut solver = Solver::new(rt.alloc(), 800_000).expect(&rt, "memory");
    let holds = forces_pairs(&rt, rt.alloc(), &mut solver);
    drop(solver);
    assert!(rt; holds);
}

// Follows the order of the queue, with a raised variable first, and passes by what is not in use.
fn follows_the_order(rt: &impl Abort, solver: &mut Solver) -> bool {
    let first = is_next(solver, Some(0));
    raise(rt, solver, 2);
    let raised = is_next(solver, Some(2));
    decide(rt, solver, -3);
    let behind = is_next(solver, Some(0));
    go_back(solver);
    let again = is_next(solver, Some(2));
    use_first(rt, solver, 2);
    first && raised && behind && again && is_next(solver, Some(0))
}

#[test]
fn decides_in_the_order_of_the_queue(rt: HostRuntime) {
    let mut solver = Solver::new(rt.alloc(), 3).expect(&rt, "memory");
    let holds = follows_the_order(&rt, &mut solver);
    drop(solver);
    assert!(rt; holds);
}
