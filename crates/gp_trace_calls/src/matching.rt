ghost use Rattle.std.specs.Prelude.{◌≡◌, ◌≢◌, Err, length};
ghost use Rattle.gp_property.specs.Atoms.{atom_count};
ghost use Rattle.gp_instance.specs.Instances.{due_instances};
ghost use Rattle.gp_instance.specs.Matches.{matches_events};

use gp_base::Row;
use gp_instance::{Instance, InstancesFault};
use gp_property::Property;
use gp_window::{Schedule, Window};
use std::alloc::Global;

/// As `gp_instance::instances`.
pub fn instances(
    alloc: Global,
    window: &Window,
    property: &Property,
    number: u32,
) -> Result<Row<Instance>, InstancesFault>
    ensures { result ≢ Err InstancesFault.Memory → result ≡ due_instances window.now property.now number }
{
    gp_instance::instances(alloc, window, property, number)
}

/// As `gp_instance::matches`.
pub fn matches(property: &Property, instance: &Instance, schedule: &Schedule) -> bool
    requires { length instance.now.events ≡ atom_count property.now.pattern }
    ensures { result ≡ matches_events property.now instance.now.events schedule.now.events }
{
    gp_instance::matches(property, instance, schedule)
}
