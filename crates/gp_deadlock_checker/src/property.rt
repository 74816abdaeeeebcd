ghost use Rattle.std.specs.Prelude.{◌≡◌, ◌≤◌, ◌↔◌, IsTrue, IfOk, length, Ok, codes};
ghost use Rattle.gp_report.specs.declared.record.PropertyBodyOf.TheVariants.{Entries};
ghost use Rattle.gp_stuck.specs.Cycles.{due_cycles};
ghost use Rattle.gp_deadlock_checker.specs.Finds.{AreCycles, FindsListed, FindsProperties, FindsProperty};

use crate::entries::check_entries;
use crate::laws::laws;
use gp_checker::{Checker, Failure, Reason, check_too_many};
use gp_instance::{Instance, InstancesFault};
use gp_report::{Entry, PropertyBody, PropertyRecord};
use gp_stuck::cycles;
use gp_text::Name;
use std::alloc::{AllocError, Global};

// How the records of a window's properties fail: there is none, the first fails, or it is not the only one.
pub(crate) fn check_properties(
    alloc: Global,
    checker: &mut Checker<'_>,
    records: &[PropertyRecord],
) -> Result<Option<Failure>, AllocError>
    ensures found { IfOk result (FindsProperties checker.old records.now) }
    ensures same { checker.new ≡ checker.old }
{
    let Some((told, others)) = records.split_first() else {
        return Ok(Some(Failure::of(Reason::WrongProperty, 0)));
    };
    if let Some(failure) = check_property(alloc, checker, told)? {
        return Ok(Some(Failure {
            property: 0,
            ..failure
        }));
    }
    if !others.is_empty() {
        return Ok(Some(Failure {
            property: 1,
            ..Failure::of(Reason::WrongProperty, 0)
        }));
    }
    Ok(None)
}

// How the record of the property fails: it has another name, or what is told of the cycles fails.
fn check_property(
    alloc: Global,
    checker: &mut Checker<'_>,
    told: &PropertyRecord,
) -> Result<Option<Failure>, AllocError>
    ensures found { IfOk result (FindsProperty checker.old (codes "deadlock") told.now) }
    ensures same { checker.new ≡ checker.old }
{
    if !is_deadlock(&told.name) {
        return Ok(Some(Failure::of(Reason::WrongProperty, 0)));
    }
    check_body(alloc, checker, &told.body)
}

fn is_deadlock(name: &Name) -> bool
    ensures { IsTrue result ↔ (name.now ≡ codes "deadlock") }
{
    let own = deadlock();
    *name == own
}

fn deadlock() -> Name
    ensures { result ≡ codes "deadlock" }
{
    Name::of(b"deadlock").unwrap()
}

// How what is told of the cycles fails.
fn check_body(
    alloc: Global,
    checker: &mut Checker<'_>,
    body: &PropertyBody,
) -> Result<Option<Failure>, AllocError>
    ensures found { IfOk result (FindsListed checker.old (due_cycles checker.old.window) body.now) }
    ensures same { checker.new ≡ checker.old }
{
    laws();
    match cycles(alloc, checker.window()) {
        Ok(listed) => check_listed(alloc, checker, listed.as_slice(), body),
        Err(InstancesFault::TooMany) => Ok(check_too_many(body)),
        Err(InstancesFault::Memory) => Err(AllocError),
    }
}

// How what is told fails where these cycles are listed.
fn check_listed(
    alloc: Global,
    checker: &mut Checker<'_>,
    cycles: &[Instance],
    body: &PropertyBody,
) -> Result<Option<Failure>, AllocError>
    requires cycles { AreCycles checker.old.window cycles.now }
    requires few { length cycles.now ≤ 10000 }
    ensures found { IfOk result (FindsListed checker.old (Ok cycles.now) body.now) }
    ensures same { checker.new ≡ checker.old }
{
    match body {
        PropertyBody::TooMany => Ok(Some(Failure::of(Reason::WrongProperty, 0))),
        PropertyBody::Entries(entries) => check_counted(alloc, checker, cycles, entries.as_slice()),
    }
}

// How entries fail that are told of these cycles: they are not as many, or one fails.
fn check_counted(
    alloc: Global,
    checker: &mut Checker<'_>,
    cycles: &[Instance],
    entries: &[Entry],
) -> Result<Option<Failure>, AllocError>
    requires cycles { AreCycles checker.old.window cycles.now }
    requires few { length cycles.now ≤ 10000 }
    ensures found { IfOk result (FindsListed checker.old (Ok cycles.now) (Entries entries.now)) }
    ensures same { checker.new ≡ checker.old }
{
    if entries.len() != cycles.len() {
        return Ok(Some(Failure::of(Reason::WrongProperty, 0)));
    }
    check_entries(alloc, checker, cycles, entries)
}
