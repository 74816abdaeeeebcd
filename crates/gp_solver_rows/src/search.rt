ghost use Rattle.std.specs.Prelude.{◌≡◌};
ghost use Rattle.gp_clause.specs.Problem.{IsValidProblem};
ghost use Rattle.gp_clause.specs.Edge.{IsSolvable};

use crate::derivation::cone_of;
use crate::fixture::{
    EIGHT, FREE, Rows, are_kept, are_lits, is_asked, is_solvable, is_valid, lit, problem_of,
    query_of,
};
use gp_certificate::Step;
use gp_clause::{Edge, Kind, Problem, Query};
use gp_derivation::LogEntry;
use gp_search::{NoMail, Search, Verdict};
use std::alloc::Global;
use std::process::Abort;

// 1 verdict: the entries that were learned, the last clause of a certificate, or literals that are true.
#[derive(Drop, Clone, Copy)]
pub enum Due<'a> {
    Spent(u32, u32),
    Refuted(&'a [i32]),
    Model(&'a [i32]),
}

fn is_true(truth: &[bool], word: i32) -> bool {
    let lit = lit(word);
    truth.get(lit.variable as usize) == Some(&lit.positive)
}

fn all_true(truth: &[bool], words: &[i32]) -> bool {
    words.iter().all(|word| is_true(truth, *word))
}

// Whether the last of these steps has this clause.
fn end_with(steps: &[Step], lits: &[i32]) -> bool {
    match steps {
        [.., step] => are_lits(step.clause.lits(), lits),
        [] => false,
    }
}

// Whether the certificate that a step stands for over a log ends with this clause.
fn ends_with(
    rt: &impl Abort,
    alloc: Global,
    problem: &Problem,
    log: &[LogEntry],
    last: &Step,
    lits: &[i32],
) -> bool {
    let clauses = problem.clauses.len();
    if clauses >= 1000 {
        return false;
    }
    let Some(certificate) = cone_of(rt, alloc, clauses as u32, log, last) else {
        return false;
    };
    let ends = end_with(certificate.steps.as_slice(), lits);
    drop(certificate);
    ends
}

// Whether the verdict of a search with a log is the one that is due. The places of a model keep these edges.
pub fn is_due(
    rt: &impl Abort,
    alloc: Global,
    problem: &Problem,
    log: &[LogEntry],
    verdict: &Verdict,
    due: &Due,
    kept: &[Edge],
) -> bool {
    match (verdict, due) {
        (Verdict::Spent { from, to }, Due::Spent(first, end)) => from == first && to == end,
        (Verdict::Refuted(last), Due::Refuted(lits)) => ends_with(
            rt, alloc, problem, log, last, lits,
        ),
        (Verdict::Model(valuation), Due::Model(lits)) => {
            let met = are_kept(valuation.places.as_slice(), kept);
            met && all_true(valuation.truth.as_slice(), lits)
        }
        _ => false,
    }
}

// A query that a search is asked: its locals, what is assumed, the budget, the verdict and, where that is due, how many
// entries the log then has.
type Asked<'a> = (&'a [Kind], &'a [i32], u64, Due<'a>, Option<usize>);

const ONE: [Kind; 1] = [Kind::Free];

fn has_length(length: usize, due: Option<usize>) -> bool {
    match due {
        Some(due) => length == due,
        None => true,
    }
}

// Whether the verdict of a query that may be asked is the one that is due, and the log as long.
fn is_answered(
    rt: &impl Abort,
    alloc: Global,
    problem: &Problem,
    search: &mut Search,
    query: &Query,
    kept: &[Edge],
    asked: &Asked,
) -> bool
    requires valid { IsValidProblem problem.now }
    requires same { search.old.problem ≡ problem.now }
    ensures { search.new.problem ≡ problem.now }
{
    let (_, _, budget, due, logged) = asked;
    assert!(rt; is_asked(problem, query));
    assert!(rt; problem.clauses.len() < 1000 && search.log().len() < 1000);
    assert!(rt; 0 < *budget && *budget < 1000);
    let mut mail = NoMail::new(problem);
    let verdict = search.ask(query, *budget, &mut mail).expect(rt, "memory");
    let log = search.log();
    let met = is_due(rt, alloc, problem, log, &verdict, due, kept);
    let long = has_length(log.len(), *logged);
    drop(verdict);
    met && long
}

// Asks a search a query.
fn asks(
    rt: &impl Abort,
    alloc: Global,
    problem: &Problem,
    search: &mut Search,
    kept: &[Edge],
    asked: &Asked,
) -> bool
    requires valid { IsValidProblem problem.now }
    requires same { search.old.problem ≡ problem.now }
    ensures { search.new.problem ≡ problem.now }
{
    let query = query_of(rt, alloc, asked.0, asked.1);
    let answered = is_answered(rt, alloc, problem, search, &query, kept, asked);
    drop(query);
    answered
}

// Whether each query is answered as it is due.
fn all_answered(
    rt: &impl Abort,
    alloc: Global,
    problem: &Problem,
    search: &mut Search,
    kept: &[Edge],
    asked: &[Asked],
) -> bool
    requires valid { IsValidProblem problem.now }
    requires same { search.old.problem ≡ problem.now }
{
    let mut all = true;
    for one in asked {
        all &= asks(rt, alloc, problem, search, kept, one);
    }
    all
}

// Whether a search gives its whole log.
fn gives_log(search: Search) -> bool {
    let length = search.log().len();
    let log = search.into_log();
    let whole = log.len() == length;
    drop(log);
    whole
}

// Whether a search over a problem answers what it is asked as it is due, and gives its log.
fn finds(rt: &impl Abort, alloc: Global, problem: &Problem, kept: &[Edge], asked: &[Asked]) -> bool
    requires valid { IsValidProblem problem.now }
    requires solvable { IsSolvable problem.now.edges }
{
    let mut search = Search::new(alloc, problem).expect(rt, "memory");
    let all = all_answered(rt, alloc, problem, &mut search, kept, asked);
    let whole = gives_log(search);
    all && whole
}

fn answers(
    rt: &impl Abort,
    alloc: Global,
    rows: &Rows,
    start: &[i64],
    kept: &[Edge],
    asked: &[Asked],
) -> bool {
    let problem = problem_of(rt, alloc, rows);
    assert!(rt; is_valid(&problem));
    assert!(rt; is_solvable(start, problem.edges.as_slice()));
    let all = finds(rt, alloc, &problem, kept, asked);
    drop(problem);
    all
}

const ALL_BUT_FIRST: [&[i32]; 7] = [
    &[1, 2, -3],
    &[1, -2, 3],
    &[1, -2, -3],
    &[-1, 2, 3],
    &[-1, 2, -3],
    &[-1, -2, 3],
    &[-1, -2, -3],
];

const ALL_BUT_LAST: [&[i32]; 7] = [
    &[1, 2, 3],
    &[1, 2, -3],
    &[1, -2, 3],
    &[1, -2, -3],
    &[-1, 2, 3],
    &[-1, 2, -3],
    &[-1, -2, 3],
];

// Clauses over three free variables, and the queries that one search over them is asked one after another.
type Counted<'a> = (&'a [&'a [i32]], &'a [Asked<'a>]);

fn all_counted(rt: &impl Abort, alloc: Global, rows: &[Counted]) -> bool {
    let mut all = true;
    for (clauses, asked) in rows {
        let problem = Rows {
            points: 0,
            kinds: &FREE,
            edges: &[],
            clauses,
        };
        all &= answers(rt, alloc, &problem, &[], &[], asked);
    }
    all
}

#[test]
fn counts_what_it_learns(rt: HostRuntime) {
    const ROWS: [Counted; 9] = [
        (&EIGHT, &[(&[], &[], 1, Due::Spent(0, 1), Some(1))]),
        (&EIGHT, &[(&[], &[], 2, Due::Spent(0, 2), Some(2))]),
        (&EIGHT, &[(&[], &[], 3, Due::Refuted(&[]), Some(3))]),
        (&EIGHT, &[(&[], &[], 27, Due::Refuted(&[]), Some(3))]),
        (
            &ALL_BUT_FIRST,
            &[(&[], &[], 27, Due::Model(&[-1, -2, -3]), None)],
        ),
        (
            &ALL_BUT_LAST,
            &[(&[], &[], 27, Due::Model(&[1, 2, 3]), None)],
        ),
        // 1 conflict while every decision is an assumption is not learned.
        (
            &[&[-1, -2]],
            &[(&[], &[1, 2], 1, Due::Refuted(&[-1, -2]), Some(0))],
        ),
        // One search goes on from what it learned.
        (
            &EIGHT,
            &[
                (&[], &[], 1, Due::Spent(0, 1), Some(1)),
                (&[], &[], 2, Due::Refuted(&[]), None),
            ],
        ),
        (
            &EIGHT,
            &[
                (&[], &[], 1, Due::Spent(0, 1), Some(1)),
                (&ONE, &[], 1, Due::Spent(1, 2), Some(2)),
                (&ONE, &[], 27, Due::Refuted(&[]), None),
            ],
        ),
    ];
    assert!(rt; all_counted(&rt, rt.alloc(), &ROWS));
}

const TURN: [Kind; 3] = [
    Kind::Order { a: 0, b: 1 },
    Kind::Order { a: 1, b: 2 },
    Kind::Order { a: 2, b: 0 },
];

const APART: [Edge; 1] = [Edge { a: 0, b: 1, c: -5 }];

const NEAR: [Edge; 1] = [Edge { a: 1, b: 0, c: 7 }];

const RISES: [Edge; 2] = [Edge { a: 0, b: 1, c: -1 }, Edge { a: 1, b: 2, c: -1 }];

const TIGHT: [Kind; 1] = [Kind::Span { a: 1, b: 0, c: 3 }];

const WIDE: [Kind; 1] = [Kind::Span { a: 1, b: 0, c: 7 }];

// Kinds and edges over three points, places that keep the edges, those that the places of a model keep, and the queries.
type Placed<'a> = (
    &'a [Kind],
    &'a [Edge],
    [i64; 3],
    &'a [Edge],
    &'a [Asked<'a>],
);

fn all_placed(rt: &impl Abort, alloc: Global, rows: &[Placed]) -> bool {
    let mut all = true;
    for (kinds, edges, start, kept, asked) in rows {
        let problem = Rows {
            points: 3,
            kinds,
            edges,
            clauses: &[],
        };
        all &= answers(rt, alloc, &problem, start, kept, asked);
    }
    all
}

#[test]
fn asks_the_places(rt: HostRuntime) {
    const ROWS: [Placed; 5] = [
        (
            &TURN,
            &[],
            [0, 0, 0],
            &[],
            &[(&[], &[1, 2, 3], 1, Due::Refuted(&[-1, -2, -3]), Some(0))],
        ),
        (
            &TURN,
            &[],
            [0, 0, 0],
            &RISES,
            &[(&[], &[1, 2], 1, Due::Model(&[1, 2, -3]), Some(0))],
        ),
        (
            &TIGHT,
            &APART,
            [-5, 0, 0],
            &[],
            &[(&[], &[1], 1, Due::Refuted(&[-1]), Some(0))],
        ),
        (
            &WIDE,
            &APART,
            [-5, 0, 0],
            &NEAR,
            &[(&[], &[1], 1, Due::Model(&[1]), Some(0))],
        ),
        // The places that keep the edges decide the side of each order, so nothing is learned.
        (
            &TURN,
            &RISES,
            [-2, -1, 0],
            &RISES,
            &[(&[], &[], 1, Due::Model(&[1, 2, -3]), Some(0))],
        ),
    ];
    assert!(rt; all_placed(&rt, rt.alloc(), &ROWS));
}

// The first variable brings two orders of three points where it is false, and cannot be true.
pub const ORDERED: Rows = Rows {
    points: 3,
    kinds: &[
        Kind::Free,
        Kind::Free,
        Kind::Free,
        Kind::Order { a: 0, b: 1 },
        Kind::Order { a: 1, b: 2 },
    ],
    edges: &[],
    clauses: &[
        &[1, 4],
        &[1, 5],
        &[-1, 2, 3],
        &[-1, 2, -3],
        &[-1, -2, 3],
        &[-1, -2, -3],
    ],
};

// The order that closes a cycle with those two.
pub const BACK: [Kind; 1] = [Kind::Order { a: 2, b: 0 }];

// The order that they bring.
const ON: [Kind; 1] = [Kind::Order { a: 0, b: 2 }];

// What was learned of a query's local serves that query alone: a later query may call another order by its number.
#[test]
fn forgets_what_rests_on_a_local(rt: HostRuntime) {
    const ROWS: [Asked; 4] = [
        (&BACK, &[6], 27, Due::Refuted(&[-6]), Some(2)),
        (&ON, &[6], 27, Due::Model(&[-1, 4, 5, 6]), None),
        (&BACK, &[6], 27, Due::Refuted(&[-6]), None),
        (&[], &[], 27, Due::Model(&[-1, 4, 5]), None),
    ];
    assert!(rt; answers(&rt, rt.alloc(), &ORDERED, &[0, 0, 0], &[], &ROWS));
}
