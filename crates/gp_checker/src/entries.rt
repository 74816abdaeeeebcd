ghost use Rattle.std.specs.Prelude.{◌≡◌, ◌≤◌, ◌↔◌, true, IsTrue, IfOk, length};
ghost use Rattle.gp_instance.specs.Instance.{is_instance};
ghost use Rattle.gp_instance.specs.ListedLaws.{AreInstances};
ghost use Rattle.gp_checker.specs.Finds.{FindsEntries, FindsEntry};

use crate::checker::Checker;
use crate::failure::{Failure, Reason};
use gp_instance::Instance;
use gp_property::Property;
use gp_report::Entry;
use gp_window::EventId;
use std::alloc::{AllocError, Global};

impl<'a> Checker<'a> {
    // The first entry that fails, of as many as there are instances.
    pub(crate) fn check_entries(
        &mut self,
        alloc: Global,
        property: &Property,
        instances: &[Instance],
        entries: &[Entry],
    ) -> Result<Option<Failure>, AllocError>
        requires instances { AreInstances self.old.window property.now instances.now }
        requires few { length instances.now ≤ 10000 }
        requires count { length entries.now ≡ length instances.now }
        ensures found { IfOk result (FindsEntries self.old property.now instances.now entries.now) }
        ensures same { self.new ≡ self.old }
    {
        for (place, entry) in entries.iter().enumerate() {
            if let Some(failure) = self.check_entry(alloc, property, &instances[place], entry)? {
                return Ok(Some(Failure {
                    instance: place as u32,
                    ..failure
                }));
            }
        }
        Ok(None)
    }

    // How the entry of an instance fails: it has other events, or its answer fails.
    fn check_entry(
        &mut self,
        alloc: Global,
        property: &Property,
        instance: &Instance,
        entry: &Entry,
    ) -> Result<Option<Failure>, AllocError>
        requires { is_instance self.old.window property.now instance.now.events ≡ true }
        ensures found { IfOk result (FindsEntry self.old property.now instance.now entry.now) }
        ensures same { self.new ≡ self.old }
    {
        if !are_same(entry.events.as_slice(), instance.events.as_slice()) {
            return Ok(Some(Failure::of(Reason::WrongEvents, 0)));
        }
        self.check_answer(alloc, property, instance, &entry.answer)
    }
}

/// Whether an entry has the events of its instance.
pub fn are_same(events: &[EventId], others: &[EventId]) -> bool
    ensures { IsTrue result ↔ (events.now ≡ others.now) }
{
    events == others
}
