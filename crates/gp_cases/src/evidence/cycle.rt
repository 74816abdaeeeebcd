// The certificate that a cycle of waiting threads is not stuck, checked again.
ghost use Rattle.std.specs.Prelude.{◌≡◌, true};
ghost use Rattle.gp_stuck.specs.Cycle.{is_cycle};

use crate::case::Case;
use crate::evidence::{ends_in_negations, last_window};
use gp_certificate::{Certificate, check_certificate};
use gp_constraint::{Encoded, base};
use gp_instance::{Instance, InstancesFault};
use gp_stuck::{cycles, cycles_are_listed, stuck_queries_are_valid, stuck_query};
use gp_window::Window;
use std::alloc::{AllocError, Global};
use std::thread::Threads;

/// Whether a certificate refutes the query of a cycle.
fn refutes(
    alloc: Global,
    encoded: &Encoded,
    cycle: &Instance,
    certificate: &Certificate,
) -> Result<bool, AllocError>
    requires { is_cycle encoded.now cycle.now.events ≡ true }
{
    stuck_queries_are_valid();
    let problem = encoded.problem();
    let query = stuck_query(alloc, encoded, cycle)?;
    let passes = check_certificate(alloc, problem, &[], &query, certificate);
    let ends = ends_in_negations(query.assumed.as_slice(), certificate.steps.as_slice());
    drop(query);
    Ok(passes? && ends)
}

/// Whether a certificate refutes the query of the one cycle of a window.
fn refutes_the_one(
    alloc: Global,
    encoded: &Encoded,
    certificate: &Certificate,
) -> Result<bool, InstancesFault> {
    cycles_are_listed();
    let window = encoded.window();
    let listed = cycles(alloc, window)?;
    let [cycle] = listed.as_slice() else {
        return Ok(false);
    };
    Ok(refutes(alloc, encoded, cycle, certificate)?)
}

/// The same in a window, where its constraints are not too many.
fn refutes_in(alloc: Global, window: Window, certificate: &Certificate) -> Option<bool> {
    match base(alloc, window) {
        Ok(encoded) => {
            let told = refutes_the_one(alloc, &encoded, certificate);
            drop(encoded);
            told.ok()
        }
        Err(_) => None,
    }
}

/// The same in the last window of a case.
pub fn refutes_last<R: AllocGlobal + Threads + Sync>(
    rt: &R,
    case: &Case,
    certificate: &Certificate,
) -> Option<bool> {
    refutes_in(rt.alloc(), last_window(rt, case)?, certificate)
}
