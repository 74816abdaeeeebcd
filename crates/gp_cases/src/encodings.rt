// What the last window of a recording gives the solver, told as text: a literal is its variable plus one, with a minus where it
// is negative, and a variable that is told of no two points is free.
//
//     problem            the problem of the last window
//     size               only how many points and clauses it has
//     queries PATH       the query of each instance of the properties of a file
//     execute T X X ..   the events that truth values T, each + or -, and places X give, where they answer the problem
mod executing;

use crate::case::Case;
use crate::layers::telling::{tell, tell_last};
use crate::layers::windows::last_window;
use crate::layers::{MOST, recording_of};
use executing::tell_executed;
use gp_clause::{Clause, Edge, Kind, Problem, Query};
use gp_constraint::{BaseFault, Encoded, base, query};
use gp_instance::{Instance, InstancesFault, instances};
use gp_property::{Property, read_properties};
use gp_window::Window;
use gp_writer::{put_line, put_words};
use std::alloc::{AllocError, Global};
use std::io;
use std::thread::Threads;

/// Does what a verb of the encodings says, and tells whether it is one.
pub fn obeys<R: AllocGlobal + Print + Threads + Sync>(
    rt: &R,
    case: &Case,
    verb: &str,
    rest: &str,
) -> io::Result<bool> {
    if !is_verb(verb) {
        return Ok(false);
    }
    let mut out = Vec::new(rt.alloc());
    tell_files(rt, &mut out, case, verb, rest)?;
    rt.write_all(out.as_slice())?;
    Ok(true)
}

fn is_verb(verb: &str) -> bool {
    matches!(verb, "problem" | "size" | "queries" | "execute")
}

fn tell_files<R: AllocGlobal + Threads + Sync>(
    rt: &R,
    out: &mut Vec<u8>,
    case: &Case,
    verb: &str,
    rest: &str,
) -> Result<(), AllocError> {
    match recording_of(rt, case)? {
        Ok(recording) => {
            let window = last_window(rt.alloc(), &recording);
            drop(recording);
            tell_window(rt.alloc(), out, case, window?, verb, rest)
        }
        Err(_) => tell(out, "no recording"),
    }
}

fn tell_window(
    alloc: Global,
    out: &mut Vec<u8>,
    case: &Case,
    window: Window,
    verb: &str,
    rest: &str,
) -> Result<(), AllocError> {
    match base(alloc, window) {
        Ok(encoded) => {
            let told = tell_encoded(alloc, out, case, &encoded, verb, rest);
            drop(encoded);
            told
        }
        Err(BaseFault::TooLarge { events, clauses }) => {
            put_line(out, b"toolarge", &[events, clauses])
        }
        Err(BaseFault::Memory) => Err(AllocError),
    }
}

fn tell_encoded(
    alloc: Global,
    out: &mut Vec<u8>,
    case: &Case,
    encoded: &Encoded,
    verb: &str,
    rest: &str,
) -> Result<(), AllocError> {
    match verb {
        "problem" => tell_problem(out, encoded.problem()),
        "size" => tell_size(out, encoded.problem()),
        "queries" => tell_queries(alloc, out, case, encoded, rest),
        _ => tell_executed(alloc, out, encoded, rest),
    }
}

fn tell_size(out: &mut Vec<u8>, problem: &Problem) -> Result<(), AllocError> {
    put_line(out, b"points", &[problem.points])?;
    put_line(out, b"clauses", &[problem.clauses.len() as u64])
}

fn tell_problem(out: &mut Vec<u8>, problem: &Problem) -> Result<(), AllocError> {
    put_line(out, b"points", &[problem.points])?;
    put_line(out, b"variables", &[problem.kinds.len() as u64])?;
    tell_kinds(out, 0, problem.kinds.as_slice())?;
    tell_edges(out, problem.edges.as_slice())?;
    tell_clauses(out, problem.clauses.as_slice())
}

// Tells the kinds of variables that are not free, the first of which has this number.
fn tell_kinds(out: &mut Vec<u8>, first: u64, kinds: &[Kind]) -> Result<(), AllocError> {
    for (place, kind) in kinds.iter().enumerate() {
        tell_kind(out, first.saturating_add(place as u64), *kind)?;
    }
    Ok(())
}

fn tell_kind(out: &mut Vec<u8>, variable: u64, kind: Kind) -> Result<(), AllocError> {
    match kind {
        Kind::Free => Ok(()),
        Kind::Order { a, b } => put_line(out, b"order", &[variable, u64::from(a), u64::from(b)]),
        Kind::Span { a, b, c } => put_line(
            out,
            b"span",
            &[variable, u64::from(a), u64::from(b), u64::from(c)],
        ),
    }
}

fn tell_edges(out: &mut Vec<u8>, edges: &[Edge]) -> Result<(), AllocError> {
    for edge in edges {
        out.extend_from_slice(b"edge")?;
        put_words(out, &[edge.a, edge.b])?;
        tell_last(out, edge.c)?;
    }
    Ok(())
}

fn tell_clauses(out: &mut Vec<u8>, clauses: &[Clause]) -> Result<(), AllocError> {
    for clause in clauses {
        put_line(out, b"clause", clause.lits())?;
    }
    Ok(())
}

fn tell_queries(
    alloc: Global,
    out: &mut Vec<u8>,
    case: &Case,
    encoded: &Encoded,
    path: &str,
) -> Result<(), AllocError> {
    let text = case.bytes(alloc, path)?;
    let told = tell_queries_of(alloc, out, encoded, text.as_slice());
    drop(text);
    told
}

fn tell_queries_of(
    alloc: Global,
    out: &mut Vec<u8>,
    encoded: &Encoded,
    text: &[u8],
) -> Result<(), AllocError> {
    if text.len() > MOST {
        return tell(out, "too long");
    }
    match read_properties(alloc, text) {
        Ok(properties) => {
            let told = tell_each_property(alloc, out, encoded, properties.as_slice());
            drop(properties);
            told
        }
        Err(_) => tell(out, "no properties"),
    }
}

fn tell_each_property(
    alloc: Global,
    out: &mut Vec<u8>,
    encoded: &Encoded,
    properties: &[Property],
) -> Result<(), AllocError> {
    for property in properties {
        tell_property(alloc, out, encoded, property)?;
    }
    Ok(())
}

fn tell_property(
    alloc: Global,
    out: &mut Vec<u8>,
    encoded: &Encoded,
    property: &Property,
) -> Result<(), AllocError> {
    match instances(alloc, encoded.window(), property, 0) {
        Ok(listed) => {
            let told = tell_each_instance(alloc, out, encoded, property, listed.as_slice());
            drop(listed);
            told
        }
        Err(InstancesFault::TooMany) => tell(out, "too many"),
        Err(InstancesFault::Memory) => Err(AllocError),
    }
}

fn tell_each_instance(
    alloc: Global,
    out: &mut Vec<u8>,
    encoded: &Encoded,
    property: &Property,
    listed: &[Instance],
) -> Result<(), AllocError> {
    for instance in listed {
        tell_instance(alloc, out, encoded, property, instance)?;
    }
    Ok(())
}

fn tell_instance(
    alloc: Global,
    out: &mut Vec<u8>,
    encoded: &Encoded,
    property: &Property,
    instance: &Instance,
) -> Result<(), AllocError> {
    put_line(out, b"instance", instance.events.as_slice())?;
    let query = query(alloc, encoded, property, instance)?;
    let told = tell_query(out, encoded.problem(), &query);
    drop(query);
    told
}

fn tell_query(out: &mut Vec<u8>, problem: &Problem, query: &Query) -> Result<(), AllocError> {
    tell_kinds(out, problem.kinds.len() as u64, query.locals.as_slice())?;
    put_line(out, b"assumed", query.assumed.as_slice())
}
