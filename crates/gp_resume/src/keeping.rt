ghost use Rattle.std.specs.Prelude.{◌≡◌, ◌≤◌, true, IfOk, Some, length};
ghost use Rattle.gp_instance.specs.Instance.{is_instance};
ghost use Rattle.gp_instance.specs.ListedLaws.{AreInstances};
ghost use Rattle.gp_resume.specs.Keeping.{KeepsListed, KeepsOne, KeepsStanding};
ghost use Rattle.gp_resume.specs.KeptForm.{IsKept, IsKeptOf};

use crate::answers::Answers;
use crate::kept::Kept;
use crate::old::{entries_named, old_record};
use crate::testing::Test;
use gp_base::Row;
use gp_constraint::Encoded;
use gp_instance::{Instance, InstancesFault, instances};
use gp_property::Property;
use gp_report::{Report, WindowRecord};
use std::alloc::{AllocError, Global};

/// What of an old report is kept of a window: the shared list of its old record where that passes, and the old answers to the
/// instances of these properties that stand. Each is tested, so that an old report of anything may be given. The instances
/// are listed once more, and each is looked up among the old entries of its property by its events.
pub fn keep<'a>(
    alloc: Global,
    encoded: &Encoded,
    properties: &[Property],
    old: &'a Report,
) -> Result<Kept<'a>, AllocError>
    requires { length properties.now ≤ 64 }
    ensures { IfOk result (IsKept old.now encoded.now properties.now) }
{
    match old_record(old, encoded.window().number()) {
        Some(told) => keep_of(alloc, encoded, properties, told),
        None => Ok(Kept::new(&[], Row::new(alloc))),
    }
}

// The same, of the old record of the window.
fn keep_of<'a>(
    alloc: Global,
    encoded: &Encoded,
    properties: &[Property],
    told: &'a WindowRecord,
) -> Result<Kept<'a>, AllocError>
    requires { length properties.now ≤ 64 }
    ensures { IfOk result (IsKeptOf (Some told.now) encoded.now properties.now) }
{
    let mut test = Test::new(alloc, encoded, told.shared.as_slice())?;
    let kept = kept_by(alloc, &mut test, properties, told);
    drop(test);
    kept
}

// The same, by the test of the old record.
fn kept_by<'a>(
    alloc: Global,
    test: &mut Test<'_, 'a>,
    properties: &[Property],
    told: &'a WindowRecord,
) -> Result<Kept<'a>, AllocError>
    requires few { length properties.now ≤ 64 }
    requires shared { test.old.shared ≡ told.now.shared }
    ensures { IfOk result (IsKeptOf (Some told.now) test.old.window properties.now) }
{
    let mut kept = Row::new(alloc);
    let mut left = properties;
    let mut number = 0u32;
    while let Some((property, more)) = left.split_first() {
        kept.push(kept_answers(alloc, test, property, number, told)?)?;
        left = more;
        number += 1;
    }
    Ok(Kept::new(test.kept_shared(), kept))
}

// The answers that are kept to the instances of the property of this number.
fn kept_answers<'a>(
    alloc: Global,
    test: &mut Test<'_, '_>,
    property: &Property,
    number: u32,
    told: &'a WindowRecord,
) -> Result<Answers<'a>, AllocError>
    requires { test.old.shared ≡ told.now.shared }
    ensures kept { IfOk result (KeepsListed told.now test.old property.now number) }
    ensures same { test.new ≡ test.old }
{
    let entries = entries_named(property.name(), told.body.properties());
    let first = Answers::first_of(alloc, entries)?;
    match instances(alloc, test.window(), property, number) {
        Ok(listed) => {
            let kept = standing(alloc, test, property, listed.as_slice(), first);
            drop(listed);
            kept
        }
        Err(InstancesFault::TooMany) => Ok(first),
        Err(InstancesFault::Memory) => {
            drop(first);
            Err(AllocError)
        }
    }
}

// These answers without those to the instances that do not stand.
fn standing<'a>(
    alloc: Global,
    test: &mut Test<'_, '_>,
    property: &Property,
    listed: &[Instance],
    answers: Answers<'a>,
) -> Result<Answers<'a>, AllocError>
    requires { AreInstances test.old.window property.now listed.now }
    ensures kept { IfOk result (KeepsStanding test.old property.now listed.now answers.entry) }
    ensures same { test.new ≡ test.old }
{
    let mut kept = answers;
    let mut left = listed;
    while let Some((instance, more)) = left.split_first() {
        kept = tested(alloc, test, property, instance, kept)?;
        left = more;
    }
    Ok(kept)
}

// These answers without that to an instance, unless it stands.
fn tested<'a>(
    alloc: Global,
    test: &mut Test<'_, '_>,
    property: &Property,
    instance: &Instance,
    answers: Answers<'a>,
) -> Result<Answers<'a>, AllocError>
    requires { is_instance test.old.window property.now instance.now.events ≡ true }
    ensures kept { IfOk result (KeepsOne test.old property.now instance.now.events answers.entry) }
    ensures same { test.new ≡ test.old }
{
    let events = instance.events.as_slice();
    let Some(answer) = answers.get(alloc, events)? else {
        return Ok(answers);
    };
    if test.stands(alloc, property, instance, answer)? {
        return Ok(answers);
    }
    answers.without(alloc, events)
}
