ghost use Rattle.std.specs.Prelude.{◌≡◌, ◌≢◌, ◌≤◌, ◌↔◌, IsTrue, IfOk, MatchOption, length, Ok};
ghost use Rattle.gp_instance.specs.Instances.{due_instances};
ghost use Rattle.gp_instance.specs.ListedLaws.{AreInstances};
ghost use Rattle.gp_report.specs.declared.record.PropertyBodyOf.TheVariants.{Entries, TooMany};
ghost use Rattle.gp_checker.specs.Finds.{FindsListed, FindsProperties, FindsProperty};
ghost use Rattle.gp_checker.specs.Reasons.{IsOfProperty};

use crate::checker::Checker;
use crate::failure::{Failure, Reason};
use crate::laws::laws;
use gp_instance::{Instance, InstancesFault, instances};
use gp_property::Property;
use gp_report::{Entry, PropertyBody, PropertyRecord};
use gp_text::Name;
use std::alloc::{AllocError, Global};

impl<'a> Checker<'a> {
    // The first property that fails, is missing or is surplus.
    pub(crate) fn check_properties(
        &mut self,
        alloc: Global,
        properties: &[Property],
        records: &[PropertyRecord],
    ) -> Result<Option<Failure>, AllocError>
        requires { length properties.now ≤ 64 }
        ensures found { IfOk result (FindsProperties self.old properties.now records.now) }
        ensures same { self.new ≡ self.old }
    {
        for (number, property) in properties.iter().enumerate() {
            let Some(told) = records.get(number) else {
                return Ok(Some(wrong_property(number as u32)));
            };
            if let Some(failure) = self.check_property(alloc, number as u32, property, told)? {
                return Ok(Some(Failure {
                    property: number as u32,
                    ..failure
                }));
            }
        }
        if properties.len() < records.len() {
            return Ok(Some(wrong_property(properties.len() as u32)));
        }
        Ok(None)
    }

    // How the record of the property of this number fails: it has another name, or what is told of its instances fails.
    fn check_property(
        &mut self,
        alloc: Global,
        number: u32,
        property: &Property,
        told: &PropertyRecord,
    ) -> Result<Option<Failure>, AllocError>
        ensures found { IfOk result (FindsProperty self.old (number, property.now) told.now) }
        ensures same { self.new ≡ self.old }
    {
        if !is_same_name(&told.name, property.name()) {
            return Ok(Some(Failure::of(Reason::WrongProperty, 0)));
        }
        self.check_body(alloc, number, property, &told.body)
    }

    // How what is told of the instances of a property fails.
    fn check_body(
        &mut self,
        alloc: Global,
        number: u32,
        property: &Property,
        body: &PropertyBody,
    ) -> Result<Option<Failure>, AllocError>
        ensures found { IfOk result (FindsListed self.old property.now (due_instances self.old.window property.now number) body.now) }
        ensures same { self.new ≡ self.old }
    {
        property.keeps_rules();
        laws();
        match instances(alloc, self.window(), property, number) {
            Ok(listed) => self.check_listed(alloc, property, listed.as_slice(), body),
            Err(InstancesFault::TooMany) => Ok(check_too_many(body)),
            Err(InstancesFault::Memory) => Err(AllocError),
        }
    }

    // How what is told fails where these instances are listed.
    fn check_listed(
        &mut self,
        alloc: Global,
        property: &Property,
        instances: &[Instance],
        body: &PropertyBody,
    ) -> Result<Option<Failure>, AllocError>
        requires instances { AreInstances self.old.window property.now instances.now }
        requires few { length instances.now ≤ 10000 }
        ensures found { IfOk result (FindsListed self.old property.now (Ok instances.now) body.now) }
        ensures same { self.new ≡ self.old }
    {
        match body {
            PropertyBody::TooMany => Ok(Some(Failure::of(Reason::WrongProperty, 0))),
            PropertyBody::Entries(entries) => {
                self.check_counted(alloc, property, instances, entries.as_slice())
            }
        }
    }

    // How entries fail that are told of these instances: they are not as many, or one fails.
    fn check_counted(
        &mut self,
        alloc: Global,
        property: &Property,
        instances: &[Instance],
        entries: &[Entry],
    ) -> Result<Option<Failure>, AllocError>
        requires instances { AreInstances self.old.window property.now instances.now }
        requires few { length instances.now ≤ 10000 }
        ensures found { IfOk result (FindsListed self.old property.now (Ok instances.now) (Entries entries.now)) }
        ensures same { self.new ≡ self.old }
    {
        if entries.len() != instances.len() {
            return Ok(Some(Failure::of(Reason::WrongProperty, 0)));
        }
        self.check_entries(alloc, property, instances, entries)
    }
}

fn wrong_property(number: u32) -> Failure
    ensures { result ≡ record { window = 0; property = number; instance = 0; reason = Reason.WrongProperty; place = 0 } }
{
    Failure {
        property: number,
        ..Failure::of(Reason::WrongProperty, 0)
    }
}

fn is_same_name(name: &Name, other: &Name) -> bool
    ensures { IsTrue result ↔ (name.now ≡ other.now) }
{
    *name == *other
}

/// How what is told of a property fails that has too many instances.
pub fn check_too_many(body: &PropertyBody) -> Option<Failure>
    ensures { MatchOption result (body.now ≡ TooMany) (λ failure. IsOfProperty Reason.WrongProperty failure × (body.now ≢ TooMany)) }
{
    match body {
        PropertyBody::TooMany => None,
        PropertyBody::Entries(_) => Some(Failure::of(Reason::WrongProperty, 0)),
    }
}
