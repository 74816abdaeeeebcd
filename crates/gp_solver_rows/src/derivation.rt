ghost use Rattle.std.specs.Prelude.{◌≡◌, [], ◌∷◌, All, IsTrue};
ghost use Rattle.gp_clause.specs.Clause.{NamesBelow};
ghost use Rattle.gp_clause.specs.Problem.{IsValidProblem, IsValidQuery};
ghost use Rattle.gp_certificate.specs.Certificate.{clauses_of};
ghost use Rattle.gp_derivation.specs.Numbering.{CanBeNumbered};

use crate::fixture::{
    Rows, are_lits, are_named, clause_of, is_asked, is_valid, problem_of, query_of, row_of,
};
use gp_base::Row;
use gp_certificate::{Certificate, Step, check_certificate, check_shared};
use gp_clause::{Edge, Kind, Problem, Query};
use gp_derivation::{LogEntry, Origin, can_be_numbered, cone, tight};
use std::alloc::Global;
use std::process::Abort;
use std::sync::Arc;

// The literals of a step's clause, and its hints.
pub type Line<'a> = (&'a [i32], &'a [u32]);

// An entry, and the lines of its certificate where it is taken.
pub type Entry<'a> = (Line<'a>, Option<&'a [Line<'a>]>);

pub fn step(rt: &impl Abort, alloc: Global, line: &Line) -> Step {
    let (words, hints) = line;
    Step {
        clause: clause_of(rt, alloc, words),
        hints: row_of(rt, alloc, hints),
    }
}

fn push_step(rt: &impl Abort, alloc: Global, all: &mut Row<Step>, line: &Line) {
    all.push(step(rt, alloc, line)).expect(rt, "memory");
}

fn steps(rt: &impl Abort, alloc: Global, lines: &[Line]) -> Row<Step> {
    let mut all = Row::new(alloc);
    for line in lines {
        push_step(rt, alloc, &mut all, line);
    }
    all
}

fn certificate(rt: &impl Abort, alloc: Global, lines: &[Line]) -> Certificate {
    Certificate {
        steps: steps(rt, alloc, lines),
    }
}

fn entry(rt: &impl Abort, alloc: Global, entry: &Entry) -> LogEntry {
    let (line, lines) = entry;
    match lines {
        None => LogEntry {
            step: step(rt, alloc, line),
            origin: Origin::Learned,
        },
        Some(lines) => LogEntry {
            step: step(rt, alloc, line),
            origin: Origin::Taken {
                sender: 1,
                certificate: Arc::new(alloc, certificate(rt, alloc, lines)).expect(rt, "memory"),
            },
        },
    }
}

fn push_entry(rt: &impl Abort, alloc: Global, log: &mut Row<LogEntry>, line: &Entry) {
    log.push(entry(rt, alloc, line)).expect(rt, "memory");
}

pub fn log_of(rt: &impl Abort, alloc: Global, entries: &[Entry]) -> Row<LogEntry> {
    let mut log = Row::new(alloc);
    for entry in entries {
        push_entry(rt, alloc, &mut log, entry);
    }
    log
}

fn is_step(given: &Step, line: &Line) -> bool {
    let (words, hints) = line;
    are_lits(given.clause.lits(), words) && given.hints.as_slice() == *hints
}

pub fn are_steps(given: &[Step], lines: &[Line]) -> bool {
    given.len() == lines.len()
        && given
            .iter()
            .zip(lines)
            .all(|(step, line)| is_step(step, line))
}

fn is_numbered_over(bases: u32, log: &[LogEntry], last: &Step) -> bool
    ensures { IsTrue result → CanBeNumbered bases log.now last.now }
{
    can_be_numbered(bases, log, last)
}

/// The certificate that a last step stands for over so many base clauses and a log, where its steps can be numbered.
pub fn cone_of(
    rt: &impl Abort,
    alloc: Global,
    bases: u32,
    log: &[LogEntry],
    last: &Step,
) -> Option<Certificate> {
    if !is_numbered_over(bases, log, last) {
        return None;
    }
    Some(cone(alloc, bases, log, last).expect(rt, "memory"))
}

// Whether the cone of a last step over three base clauses and a log has these steps.
fn is_cone(rt: &impl Abort, alloc: Global, log: &[LogEntry], last: &Step, lines: &[Line]) -> bool {
    let certificate = cone_of(rt, alloc, 3, log, last).expect(rt, "a cone");
    let due = are_steps(certificate.steps.as_slice(), lines);
    drop(certificate);
    due
}

// A log over three base clauses, so that hint 3 names its first entry, the hints of a last step, and the cone of that.
type Cone<'a> = (&'a str, [Entry<'a>; 3], &'a [u32], &'a [Line<'a>]);

fn has_cone(rt: &impl Abort, alloc: Global, row: &Cone) -> bool {
    let (_, entries, hints, lines) = row;
    let last = step(rt, alloc, &(&[20], hints));
    let log = log_of(rt, alloc, entries);
    is_cone(rt, alloc, log.as_slice(), &last, lines)
}

fn have_cones(rt: &impl Abort, alloc: Global, rows: &[Cone]) {
    for row in rows {
        assert!(rt; has_cone(rt, alloc, row), "{}", row.0);
    }
}

#[test]
fn cones_of_small_logs(rt: HostRuntime) {
    const FIRST: Entry = ((&[10], &[0, 1]), None);
    const ROWS: [Cone; 7] = [
        (
            "nothing",
            [FIRST, FIRST, FIRST],
            &[2, 0],
            &[(&[20], &[2, 0])],
        ),
        (
            "a chain",
            [FIRST, ((&[11], &[3, 3]), None), ((&[12], &[4, 1]), None)],
            &[5, 2],
            &[
                (&[10], &[0, 1]),
                (&[11], &[3, 3]),
                (&[12], &[4, 1]),
                (&[20], &[5, 2]),
            ],
        ),
        (
            "a diamond",
            [FIRST, ((&[11], &[3, 0]), None), ((&[12], &[2, 3]), None)],
            &[4, 5],
            &[
                (&[10], &[0, 1]),
                (&[11], &[3, 0]),
                (&[12], &[2, 3]),
                (&[20], &[4, 5]),
            ],
        ),
        (
            "an entry without hints",
            [FIRST, ((&[11], &[]), None), ((&[12], &[4, 1]), None)],
            &[5, 2],
            &[(&[11], &[0]), (&[12], &[3, 1]), (&[20], &[4, 2])],
        ),
        ("no hints", [FIRST, FIRST, FIRST], &[], &[(&[20], &[0])]),
        (
            "an entry that is not needed",
            [FIRST, ((&[11], &[1, 2]), None), ((&[12], &[3, 2]), None)],
            &[5, 1],
            &[(&[10], &[0, 1]), (&[12], &[3, 2]), (&[20], &[4, 1])],
        ),
        (
            "a taken entry",
            [
                FIRST,
                ((&[11], &[]), Some(&[(&[30], &[1, 2]), (&[11], &[3, 0])])),
                ((&[12], &[4, 3]), None),
            ],
            &[5, 4],
            &[
                (&[10], &[0, 1]),
                (&[30], &[1, 2]),
                (&[11], &[4, 0]),
                (&[12], &[5, 3]),
                (&[20], &[6, 5]),
            ],
        ),
    ];
    have_cones(&rt, rt.alloc(), &ROWS)
}

// How many base clauses there are, the entry of a log, the hints of a last step, and whether they can be numbered.
type Numbered<'a> = (&'a str, u32, [Entry<'a>; 1], &'a [u32], bool);

fn is_numbered(rt: &impl Abort, alloc: Global, row: &Numbered) -> bool {
    let (_, bases, entries, hints, due) = row;
    let last = step(rt, alloc, &(&[20], hints));
    let log = log_of(rt, alloc, entries);
    can_be_numbered(*bases, log.as_slice(), &last) == *due
}

fn are_numbered(rt: &impl Abort, alloc: Global, rows: &[Numbered]) {
    for row in rows {
        assert!(rt; is_numbered(rt, alloc, row), "{}", row.0);
    }
}

#[test]
fn logs_that_can_and_cannot_be_numbered(rt: HostRuntime) {
    const FEW: [Entry; 1] = [((&[10], &[0, 0]), None)];
    const BEFORE: [Entry; 1] = [((&[10], &[2, 0]), None)];
    const ITSELF: [Entry; 1] = [((&[10], &[3, 0]), None)];
    const TAKEN: [Entry; 1] = [((&[10], &[]), Some(&[(&[10], &[2, 0]), (&[10], &[3, 0])]))];
    const TURNED: [Entry; 1] = [((&[10], &[]), Some(&[(&[10], &[2, 0]), (&[10], &[4, 0])]))];
    const ROWS: [Numbered; 7] = [
        ("what comes before", 3, BEFORE, &[3, 0], true),
        ("an entry itself", 3, ITSELF, &[0, 0], false),
        ("the last step", 3, BEFORE, &[4, 0], false),
        ("a certificate", 3, TAKEN, &[3, 0], true),
        ("its step itself", 3, TURNED, &[3, 0], false),
        ("few enough", 4294967293, FEW, &[0, 0], true),
        ("one too many", 4294967294, FEW, &[0, 0], false),
    ];
    are_numbered(&rt, rt.alloc(), &ROWS)
}

// Two free variables, and the clauses {a, b} and {a, not b}.
pub const TWO: Rows = Rows {
    points: 0,
    kinds: &[Kind::Free, Kind::Free],
    edges: &[],
    clauses: &[&[1, 2], &[1, -2]],
};

// A window in which one thread starts a second, sets a flag, and the second reads it: five events, of which each is
// executed or not, the order of the start and the read, the read's choice, and the order of the write and the read.
const FLAG: Rows = Rows {
    points: 5,
    kinds: &[
        Kind::Free,
        Kind::Free,
        Kind::Free,
        Kind::Free,
        Kind::Free,
        Kind::Order { a: 0, b: 3 },
        Kind::Free,
        Kind::Order { a: 2, b: 3 },
    ],
    edges: &[
        Edge { a: 0, b: 1, c: -1 },
        Edge { a: 1, b: 2, c: -1 },
        Edge { a: 3, b: 4, c: -1 },
    ],
    clauses: &[
        &[1, -2],
        &[2, -3],
        &[4, -5],
        &[1, -4],
        &[-4, 6],
        &[-4, 7],
        &[3, -7],
        &[-7, 8],
    ],
};

// The use before the authorisation.
const ORDER: [Kind; 1] = [Kind::Order { a: 1, b: 4 }];

fn all_named(variables: usize, steps: &[Step]) -> bool
    ensures { IsTrue result → All (λ step. NamesBelow variables step.clause) steps.now }
{
    steps
        .iter()
        .all(|step| are_named(variables, step.clause.lits()))
}

// Whether all variables of the steps are below the count.
fn are_within(variables: usize, steps: &[Step]) -> bool
    ensures { IsTrue result → All (NamesBelow variables) (clauses_of steps.now) }
{
    all_named(variables, steps)
}

// A problem, and a query to it that assumes nothing.
#[derive(Drop)]
struct Posed {
    problem: Problem,
    query: Query,
}

fn pose(rt: &impl Abort, alloc: Global, rows: &Rows, locals: &[Kind]) -> Posed {
    Posed {
        problem: problem_of(rt, alloc, rows),
        query: query_of(rt, alloc, locals, &[]),
    }
}

fn passes(
    rt: &impl Abort,
    alloc: Global,
    posed: &Posed,
    shared: &[Step],
    own: &Certificate,
) -> bool {
    let Posed { problem, query } = posed;
    assert!(rt; is_valid(problem));
    assert!(rt; is_asked(problem, query));
    assert!(rt; are_within(problem.kinds.len() + query.locals.len(), shared));
    check_certificate(alloc, problem, shared, query, own).expect(rt, "memory")
}

// Shared steps and own ones, and whether each own one passes over the shared ones.
type Passing<'a> = (&'a str, &'a [Line<'a>], &'a [Line<'a>], bool);

fn is_passing(rt: &impl Abort, alloc: Global, posed: &Posed, row: &Passing) -> bool {
    let (_, shared, own, due) = row;
    let shared = steps(rt, alloc, shared);
    let own = certificate(rt, alloc, own);
    passes(rt, alloc, posed, shared.as_slice(), &own) == *due
}

fn are_passing(rt: &impl Abort, alloc: Global, posed: &Posed, rows: &[Passing]) {
    for row in rows {
        assert!(rt; is_passing(rt, alloc, posed, row), "{}", row.0);
    }
}

#[test]
fn checks_a_step_without_hints(rt: HostRuntime) {
    const ROWS: [Passing; 2] = [
        ("{a} by all clauses", &[], &[(&[1], &[])], true),
        ("{b}", &[], &[(&[2], &[])], false),
    ];
    let posed = pose(&rt, rt.alloc(), &TWO, &[]);
    are_passing(&rt, rt.alloc(), &posed, &ROWS);
    drop(posed);
}

#[test]
fn checks_each_own_step(rt: HostRuntime) {
    const LAST: Line = (&[-2, -5, 9], &[2, 5, 7]);
    const OVER: Line = (&[-2, -5, 9], &[8, 5, 7]);
    const MOVED: Line = (&[4, -5], &[2]);
    const TURNED: Line = (&[-2, -5, -9], &[2, 5, 7]);
    const ITSELF: Line = (&[-2, -5, 9], &[2, 5, 8]);
    const ROWS: [Passing; 7] = [
        ("three hints", &[], &[LAST], true),
        ("turned", &[], &[TURNED], false),
        ("a hint to itself", &[], &[ITSELF], false),
        ("no such variable", &[], &[(&[-900], &[2])], false),
        ("over a shared step", &[MOVED], &[OVER], true),
        ("after an own step", &[], &[MOVED, OVER], true),
        ("the second fails", &[], &[LAST, (&[-4], &[])], false),
    ];
    let posed = pose(&rt, rt.alloc(), &FLAG, &ORDER);
    are_passing(&rt, rt.alloc(), &posed, &ROWS);
    drop(posed);
}

// The first shared step that fails.
fn first_of(rt: &impl Abort, alloc: Global, problem: &Problem, shared: &[Step]) -> Option<u64> {
    assert!(rt; is_valid(problem));
    check_shared(alloc, problem, shared).expect(rt, "memory")
}

// Shared steps, and the first of them that fails.
type Failing<'a> = (&'a [Line<'a>], Option<u64>);

fn is_first(rt: &impl Abort, alloc: Global, problem: &Problem, row: &Failing) -> bool {
    let (shared, due) = row;
    let shared = steps(rt, alloc, shared);
    first_of(rt, alloc, problem, shared.as_slice()) == *due
}

fn are_first(rt: &impl Abort, alloc: Global, problem: &Problem, rows: &[Failing]) -> bool {
    let mut all = true;
    for row in rows {
        all &= is_first(rt, alloc, problem, row);
    }
    all
}

#[test]
fn tells_the_first_shared_step_that_fails(rt: HostRuntime) {
    const GOOD: Line = (&[4, -5], &[2]);
    const BAD: Line = (&[3, -5], &[2]);
    const LOCAL: Line = (&[-2, -5, 9], &[2, 5, 7]);
    const ROWS: [Failing; 5] = [
        (&[], None),
        (&[GOOD], None),
        (&[BAD], Some(0)),
        (&[GOOD, BAD, BAD], Some(1)),
        (&[GOOD, LOCAL], Some(1)),
    ];
    let problem = problem_of(&rt, rt.alloc(), &FLAG);
    let all = are_first(&rt, rt.alloc(), &problem, &ROWS);
    drop(problem);
    assert!(rt; all);
}

// The step of a certificate that has one.
fn only_step(rt: &impl Abort, certificate: Certificate) -> Step
    ensures { certificate.steps ≡ result ∷ [] }
{
    let mut steps = certificate.steps.into_vec();
    let step = steps.pop().expect(rt, "a step");
    assert!(rt; steps.is_empty());
    step
}

// The step of a certificate, made as tight as it can be with the clauses that its hints name.
fn tightened(
    rt: &impl Abort,
    alloc: Global,
    problem: &Problem,
    query: &Query,
    certificate: Certificate,
) -> Step
    requires valid { IsValidProblem problem.now }
    requires asked { IsValidQuery problem.now query.now }
{
    assert!(rt; check_certificate(alloc, problem, &[], query, &certificate).expect(rt, "memory"));
    let step = only_step(rt, certificate);
    assert!(rt; !step.hints.is_empty());
    tight(alloc, problem, query, &[], step).expect(rt, "memory")
}

// Whether the one step of a certificate is this one when it is made tight.
fn is_tightened(rt: &impl Abort, alloc: Global, posed: &Posed, lines: &[Line], due: &Line) -> bool {
    let Posed { problem, query } = posed;
    assert!(rt; is_valid(problem));
    assert!(rt; is_asked(problem, query));
    let only = certificate(rt, alloc, lines);
    let short = tightened(rt, alloc, problem, query, only);
    is_step(&short, due)
}

#[test]
fn leaves_out_what_can_be_left_out(rt: HostRuntime) {
    const LONG: [Line; 1] = [(&[1, 2], &[0, 1])];
    const SHORT: Line = (&[1], &[0, 1]);
    let posed = pose(&rt, rt.alloc(), &TWO, &[]);
    let tightened = is_tightened(&rt, rt.alloc(), &posed, &LONG, &SHORT);
    drop(posed);
    assert!(rt; tightened);
}
