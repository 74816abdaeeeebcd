// The certificate that an instance of a property cannot happen where each wake needs a signal, checked again.
ghost use Rattle.std.specs.Prelude.{◌≡◌, ◌≤◌, true, IfOk, length};
ghost use Rattle.gp_constraint.specs.Encoded.{IsEncodable};
ghost use Rattle.gp_constraint.specs.Query.{query_of};
ghost use Rattle.gp_instance.specs.Instance.{is_instance};
ghost use Rattle.gp_notify.specs.Extended.{lift};

use crate::case::Case;
use crate::evidence::{ends_in_negations, last_window, properties_of};
use gp_certificate::{Certificate, check_certificate};
use gp_clause::Query;
use gp_constraint::{Encoded, base, problems_are_valid, query};
use gp_instance::{Instance, InstancesFault, instances, lists_exactly};
use gp_notify::{NotifyProblem, extend, extended_is_valid};
use gp_property::Property;
use gp_window::Window;
use std::alloc::{AllocError, Global};
use std::thread::Threads;

/// The query of an instance, lifted to the problem with signals.
fn lifted_query(
    alloc: Global,
    extended: &NotifyProblem,
    property: &Property,
    instance: &Instance,
) -> Result<Query, AllocError>
    ensures { IfOk result (λ query. query ≡ lift extended.now (query_of extended.now property.now instance.now.events)) }
{
    let asked = query(alloc, extended.encoded(), property, instance)?;
    let lifted = extended.lift(alloc, asked)?;
    Ok(lifted)
}

/// Whether a certificate refutes the lifted query of an instance.
fn refutes(
    alloc: Global,
    extended: &NotifyProblem,
    property: &Property,
    instance: &Instance,
    certificate: &Certificate,
) -> Result<bool, AllocError>
    requires encodable { IsEncodable extended.now }
    requires few { length instance.now.events ≤ 6 }
    requires instance { is_instance extended.now property.now instance.now.events ≡ true }
{
    problems_are_valid();
    extended_is_valid();
    let problem = extended.problem();
    let query = lifted_query(alloc, extended, property, instance)?;
    let passes = check_certificate(alloc, problem, &[], &query, certificate);
    let ends = ends_in_negations(query.assumed.as_slice(), certificate.steps.as_slice());
    drop(query);
    Ok(passes? && ends)
}

/// Whether a certificate refutes the query of the one instance of a property, where each wake needs a signal.
fn refutes_the_one(
    alloc: Global,
    extended: &NotifyProblem,
    property: &Property,
    certificate: &Certificate,
) -> Result<bool, InstancesFault> {
    lists_exactly();
    let window = extended.window();
    let listed = instances(alloc, window, property, 0)?;
    let [instance] = listed.as_slice() else {
        return Ok(false);
    };
    if instance.events.len() > 6 {
        return Ok(false);
    }
    Ok(refutes(alloc, extended, property, instance, certificate)?)
}

/// The same in a window that is encoded, where each wake has a sleep.
fn refutes_where_paired(
    alloc: Global,
    encoded: Encoded,
    property: &Property,
    certificate: &Certificate,
) -> Option<bool> {
    match extend(alloc, encoded) {
        Ok(extended) => {
            let told = refutes_the_one(alloc, &extended, property, certificate);
            drop(extended);
            told.ok()
        }
        Err(_) => None,
    }
}

/// The same in a window, where its constraints are not too many.
fn refutes_in(
    alloc: Global,
    window: Window,
    property: &Property,
    certificate: &Certificate,
) -> Option<bool> {
    match base(alloc, window) {
        Ok(encoded) => refutes_where_paired(alloc, encoded, property, certificate),
        Err(_) => None,
    }
}

/// The same in the last window of a case, for its one property.
pub fn refutes_last<R: AllocGlobal + Threads + Sync>(
    rt: &R,
    case: &Case,
    certificate: &Certificate,
) -> Option<bool> {
    let properties = properties_of(rt.alloc(), case)?;
    let told = refutes_one_of(rt, case, properties.as_slice(), certificate);
    drop(properties);
    told
}

fn refutes_one_of<R: AllocGlobal + Threads + Sync>(
    rt: &R,
    case: &Case,
    properties: &[Property],
    certificate: &Certificate,
) -> Option<bool> {
    match properties {
        [property] => refutes_in(rt.alloc(), last_window(rt, case)?, property, certificate),
        _ => None,
    }
}
