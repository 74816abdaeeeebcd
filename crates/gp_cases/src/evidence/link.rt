// The certificate that no schedule links a window to the next, checked again.
ghost use Rattle.std.specs.Prelude.{◌≡◌};
ghost use Rattle.gp_clause.specs.Problem.{IsValidProblem};
ghost use Rattle.gp_constraint.specs.Extended.{nothing_asked};

use crate::case::Case;
use crate::evidence::ends_in_negations;
use crate::layers::recording_of;
use crate::layers::windows::window_numbered;
use gp_base::Row;
use gp_certificate::{Certificate, check_certificate};
use gp_clause::{Problem, Query};
use gp_constraint::{Encoded, base};
use gp_link::link_problem;
use gp_linked::LinkAnswer;
use gp_window::{Recording, Window};
use std::alloc::{AllocError, Global};
use std::thread::Threads;

fn nothing_asked(alloc: Global) -> Query
    ensures { result ≡ nothing_asked }
{
    Query {
        locals: Row::new(alloc),
        assumed: Row::new(alloc),
    }
}

/// Whether a certificate refutes a problem of which nothing is asked.
fn refutes(alloc: Global, problem: &Problem, certificate: &Certificate) -> Result<bool, AllocError>
    requires { IsValidProblem problem.now }
{
    let query = nothing_asked(alloc);
    let passes = check_certificate(alloc, problem, &[], &query, certificate);
    let ends = ends_in_negations(query.assumed.as_slice(), certificate.steps.as_slice());
    drop(query);
    Ok(passes? && ends)
}

/// Whether it refutes that a window is linked to the next, where their constraints are not too many.
fn refutes_encoded(
    alloc: Global,
    encoded: Encoded,
    next: &Window,
    certificate: &Certificate,
) -> Option<bool> {
    match link_problem(alloc, encoded, next) {
        Ok(extended) => {
            let told = refutes(alloc, extended.problem(), certificate);
            drop(extended);
            told.ok()
        }
        Err(_) => None,
    }
}

/// The same of the window of a number.
fn refutes_before(
    alloc: Global,
    recording: &Recording,
    number: u32,
    next: &Window,
    certificate: &Certificate,
) -> Option<bool> {
    let window = window_numbered(alloc, recording, number).ok()??;
    match base(alloc, window) {
        Ok(encoded) => refutes_encoded(alloc, encoded, next, certificate),
        Err(_) => None,
    }
}

/// The same of two windows of a recording.
fn refutes_in(
    alloc: Global,
    recording: &Recording,
    number: u32,
    certificate: &Certificate,
) -> Option<bool> {
    let next = window_numbered(alloc, recording, number.checked_add(1)?).ok()??;
    let told = refutes_before(alloc, recording, number, &next, certificate);
    drop(next);
    told
}

/// The first window that no schedule links to the next, by its number, and the certificate of that.
fn first_unlinkable(links: &[LinkAnswer]) -> Option<(u32, &Certificate)> {
    for (number, link) in (1..4096u32).zip(links) {
        if let LinkAnswer::Unlinkable(certificate) = link {
            return Some((number, certificate));
        }
    }
    None
}

/// Whether the certificate of the first window holds that no schedule links to the next.
pub fn refutes_first<R: AllocGlobal + Threads + Sync>(
    rt: &R,
    case: &Case,
    links: &[LinkAnswer],
) -> Option<bool> {
    let (number, certificate) = first_unlinkable(links)?;
    match recording_of(rt, case).ok()? {
        Ok(recording) => {
            let told = refutes_in(rt.alloc(), &recording, number, certificate);
            drop(recording);
            told
        }
        Err(_) => None,
    }
}
