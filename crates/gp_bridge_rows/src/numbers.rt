// A read of the start value beside a write of another thread. The window has two points, 0 and 1, and four variables: that
// each is executed, that the read sees the start value, and that point 0 is before point 1. Its clauses are {not x(0), s(0)}
// and {not s(0), not x(1), o(0, 1)}. Behind them stand those of the family for the event of point n, {l(n)} and
// {not l(n), x(n)}, and l(n) is a fifth, free variable, with the number 4.
use crate::happens::Happens;
use crate::recorded::recording_of;
use gp_clause::{Clause, Kind, Lit};
use gp_constraint::{ExtendedProblem, Symbol, base, extended};
use gp_window::{EventId, Window, cut};
use std::alloc::Global;
use std::process::Abort;
use std::thread::Threads;

const FILES: [(&str, &str); 3] = [
    ("manifest", "gptrace 1\nthreads 2\nepochs 1\nroots 1 2\n"),
    ("t1.trace", "read x 0\n"),
    ("t2.trace", "write x 1\n"),
];

const BASE: [&[i32]; 2] = [&[-1, 3], &[-2, -3, 4]];

// An event, the clauses of the family, each literal its variable plus one with its sign, and how many variables are free.
#[derive(Drop, Clone, Copy)]
struct Row<'a> {
    event: EventId,
    further: &'a [&'a [i32]],
    kinds: usize,
    own: [Option<u32>; 2],
}

fn is_lit(lit: &Lit, due: i32) -> bool {
    lit.positive == (due > 0) && u64::from(lit.variable) + 1 == u64::from(due.unsigned_abs())
}

fn zip_lits(lits: &[Lit], due: &[i32]) -> bool {
    lits.iter().zip(due).all(|(lit, due)| is_lit(lit, *due))
}

fn is_clause(clause: &Clause, due: &[i32]) -> bool {
    clause.len() == due.len() && zip_lits(clause.lits(), due)
}

fn zip_clauses(clauses: &[Clause], due: &[&[i32]]) -> bool {
    clauses
        .iter()
        .zip(due)
        .all(|(clause, due)| is_clause(clause, due))
}

fn are_clauses(clauses: &[Clause], due: &[&[i32]]) -> bool {
    clauses.len() == due.len() && zip_clauses(clauses, due)
}

// The base's clauses come first.
fn has_clauses(clauses: &[Clause], further: &[&[i32]]) -> bool {
    if clauses.len() < BASE.len() {
        return false;
    }
    let (own, rest) = clauses.split_at(BASE.len());
    are_clauses(own, &BASE) && are_clauses(rest, further)
}

fn is_kind(place: usize, kind: Kind) -> bool {
    match kind {
        Kind::Order { a, b } => place == 3 && a == 0 && b == 1,
        Kind::Free => place != 3,
        Kind::Span { .. } => false,
    }
}

fn are_kinds(kinds: &[Kind]) -> bool {
    for (place, kind) in kinds.iter().enumerate() {
        if !is_kind(place, *kind) {
            return false;
        }
    }
    true
}

fn is_due(extended: &ExtendedProblem, row: &Row) -> bool {
    let problem = extended.problem();
    let kinds = problem.kinds.as_slice();
    problem.points == 2
        && kinds.len() == row.kinds
        && are_kinds(kinds)
        && has_clauses(problem.clauses.as_slice(), row.further)
}

fn is_numbered(extended: &ExtendedProblem, own: [Option<u32>; 2]) -> bool {
    let [first, second] = own;
    extended.variable(Symbol::Last(0)) == first
        && extended.variable(Symbol::Last(1)) == second
        && extended.variable(Symbol::Executed(1)) == Some(1)
}

fn window_of<R: AllocGlobal + Threads + Sync + Abort>(rt: &R) -> Window {
    let recording = recording_of(rt, &FILES);
    let window = cut(rt.alloc(), &recording, 1).expect(rt, "memory");
    drop(recording);
    window
}

// The problem of a window with the family.
fn extend(rt: &impl Abort, alloc: Global, window: Window, family: &Happens) -> ExtendedProblem {
    let encoded = base(alloc, window).expect(rt, "a base");
    extended(alloc, encoded, family).expect(rt, "a problem")
}

fn holds(rt: &impl Abort, alloc: Global, window: Window, row: &Row) -> bool {
    let family = Happens { event: row.event };
    let extended = extend(rt, alloc, window, &family);
    let due = is_due(&extended, row) && is_numbered(&extended, row.own);
    drop(extended);
    due
}

const ROWS: [Row; 3] = [
    Row {
        event: EventId {
            thread: 1,
            index: 0,
        },
        further: &[&[5], &[1, -5]],
        kinds: 5,
        own: [Some(4), None],
    },
    Row {
        event: EventId {
            thread: 2,
            index: 0,
        },
        further: &[&[5], &[2, -5]],
        kinds: 5,
        own: [None, Some(4)],
    },
    // There is no such event, and so no clause and no symbol.
    Row {
        event: EventId {
            thread: 2,
            index: 1,
        },
        further: &[],
        kinds: 4,
        own: [None, None],
    },
];

#[test]
fn families_are_numbered_behind_the_base(rt: HostRuntime) {
    for row in ROWS {
        let window = window_of(&rt);
        assert!(rt;
            holds(&rt, rt.alloc(), window, &row),
            "{}",
            row.event.thread
        );
    }
}
