ghost use Rattle.std.specs.Prelude.{◌<◌, length};

use crate::derivation::{Entry, Line, are_steps, log_of, step};
use crate::fixture::{Rows, problem_of, row_of};
use gp_base::Row;
use gp_certificate::{Certificate, Step};
use gp_clause::{Clause, Kind, Lit, Problem};
use gp_derivation::{LogEntry, Origin, can_be_numbered, small_cone};
use std::alloc::Global;
use std::process::Abort;

// The cone of the entry at a place of a log, where it is fit to share.
fn cone_at(
    rt: &impl Abort,
    alloc: Global,
    problem: &Problem,
    log: &[LogEntry],
    place: u32,
) -> Option<Certificate> {
    assert!(rt; (place as usize) < log.len() && problem.clauses.len() < 1000);
    let bases = problem.clauses.len() as u32;
    assert!(rt; can_be_numbered(bases, log, &log[place as usize].step));
    small_cone(alloc, problem, log, place).expect(rt, "memory")
}

/// Whether the entry at a place of a log is fit to share.
pub fn is_fit(
    rt: &impl Abort,
    alloc: Global,
    problem: &Problem,
    log: &[LogEntry],
    place: u32,
) -> bool {
    let cone = cone_at(rt, alloc, problem, log, place);
    cone.is_some()
}

// 160 free variables, and three base clauses, so that hint 3 names the first entry of a log.
const BASE: Rows = Rows {
    points: 0,
    kinds: &[Kind::Free; 160],
    edges: &[],
    clauses: &[&[1], &[2], &[3]],
};

fn is_due(cone: &Option<Certificate>, due: &Option<&[Line]>) -> bool {
    match (cone, due) {
        (Some(certificate), Some(lines)) => are_steps(certificate.steps.as_slice(), lines),
        (None, None) => true,
        _ => false,
    }
}

// A log, the place of an entry, and the cone of that where it is fit to share.
type Small<'a> = (&'a str, &'a [Entry<'a>], u32, Option<&'a [Line<'a>]>);

fn is_small(rt: &impl Abort, alloc: Global, problem: &Problem, row: &Small) -> bool {
    let (_, entries, place, due) = row;
    let log = log_of(rt, alloc, entries);
    let cone = cone_at(rt, alloc, problem, log.as_slice(), *place);
    is_due(&cone, due)
}

fn are_small(rt: &impl Abort, alloc: Global, problem: &Problem, rows: &[Small]) {
    for row in rows {
        assert!(rt; is_small(rt, alloc, problem, row), "{}", row.0);
    }
}

#[test]
fn cones_of_what_is_fit_to_share(rt: HostRuntime) {
    const FIRST: Line = (&[10], &[0, 1]);
    const SECOND: Line = (&[11, -12], &[3, 2]);
    const EIGHT: Line = (&[1, 2, 3, 4, 5, 6, 7, 8], &[0]);
    const NINE: Line = (&[1, 2, 3, 4, 5, 6, 7, 8, 9], &[0]);
    const LAST: Line = (&[160], &[0]);
    const LOCAL: Line = (&[-161], &[0]);
    const APART: Line = (&[11], &[1]);
    const FOREIGN: Line = (&[30], &[1, 2]);
    const ROWS: [Small; 11] = [
        ("a base clause", &[(FIRST, None)], 0, Some(&[FIRST])),
        (
            "an entry",
            &[(FIRST, None), (SECOND, None)],
            1,
            Some(&[FIRST, SECOND]),
        ),
        (
            "the first of two",
            &[(FIRST, None), (SECOND, None)],
            0,
            Some(&[FIRST]),
        ),
        ("eight literals", &[(EIGHT, None)], 0, Some(&[EIGHT])),
        ("nine literals", &[(NINE, None)], 0, None),
        (
            "over nine literals",
            &[(NINE, None), (SECOND, None)],
            1,
            Some(&[NINE, SECOND]),
        ),
        ("the last variable", &[(LAST, None)], 0, Some(&[LAST])),
        ("a local", &[(LOCAL, None)], 0, None),
        ("over a local", &[(LOCAL, None), (SECOND, None)], 1, None),
        (
            "beside a local",
            &[(LOCAL, None), (APART, None)],
            1,
            Some(&[APART]),
        ),
        (
            "a taken one",
            &[((&[11, -12], &[]), Some(&[FOREIGN, SECOND]))],
            0,
            Some(&[FOREIGN, SECOND]),
        ),
    ];
    let problem = problem_of(&rt, rt.alloc(), &BASE);
    are_small(&rt, rt.alloc(), &problem, &ROWS);
    drop(problem);
}

// The clause of so many of the first variables.
fn wide(rt: &impl Abort, alloc: Global, width: u32) -> Clause {
    let mut lits = Vec::new(alloc);
    for variable in 0..width {
        lits.push(Lit {
            variable,
            positive: true,
        })
        .expect(rt, "memory");
    }
    Clause::of(lits).expect(rt, "a clause")
}

// An entry of so many literals with one hint.
fn link(rt: &impl Abort, alloc: Global, width: u32, hint: u32) -> LogEntry {
    let clause = wide(rt, alloc, width);
    let hints = row_of(rt, alloc, &[hint]);
    LogEntry {
        step: Step { clause, hints },
        origin: Origin::Learned,
    }
}

fn push_link(rt: &impl Abort, alloc: Global, log: &mut Row<LogEntry>, width: u32, hint: u32) {
    log.push(link(rt, alloc, width, hint)).expect(rt, "memory");
}

// So many entries of so many literals each, and one entry of `last` literals. The first rests on a base clause, and each
// later one on the one before it.
fn chain(rt: &impl Abort, alloc: Global, entries: u8, width: u32, last: u32) -> Row<LogEntry> {
    let mut log = Row::new(alloc);
    for place in 0..entries {
        push_link(rt, alloc, &mut log, width, 2 + place as u32);
    }
    push_link(rt, alloc, &mut log, last, 2 + entries as u32);
    log
}

// A chain, and how many steps the cone of its last entry has where that is fit to share.
type Long<'a> = (&'a str, u8, u32, u32, Option<usize>);

fn is_long(rt: &impl Abort, alloc: Global, problem: &Problem, row: &Long) -> bool {
    let (_, entries, width, last, due) = row;
    let log = chain(rt, alloc, *entries, *width, *last);
    let cone = cone_at(rt, alloc, problem, log.as_slice(), *entries as u32);
    match cone {
        Some(certificate) => Some(certificate.steps.len()) == *due,
        None => due.is_none(),
    }
}

fn are_long(rt: &impl Abort, alloc: Global, problem: &Problem, rows: &[Long]) {
    for row in rows {
        assert!(rt; is_long(rt, alloc, problem, row), "{}", row.0);
    }
}

#[test]
fn cones_that_are_just_small(rt: HostRuntime) {
    const ROWS: [Long; 4] = [
        ("64 steps", 63, 1, 1, Some(64)),
        ("65 steps", 64, 1, 1, None),
        ("2,048 literals", 51, 40, 8, Some(52)),
        ("2,049 literals", 13, 157, 8, None),
    ];
    let problem = problem_of(&rt, rt.alloc(), &BASE);
    are_long(&rt, rt.alloc(), &problem, &ROWS);
    drop(problem);
}
