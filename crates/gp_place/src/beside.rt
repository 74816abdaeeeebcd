use crate::places::Places;
use gp_base::Row;

/// That an instance was seen to happen.
#[derive(Drop)]
pub struct Sighting {
    /// The number of the instance's window.
    pub window: u32,
    /// The name of its property.
    pub property: Row<u8>,
    /// Its number among the instances of the property in the window, from 0.
    pub instance: u32,
    /// What was seen.
    pub text: Row<u8>,
}

/// What stands beside a report.
#[derive(Drop)]
pub struct Beside {
    pub places: Places,
    pub sightings: Row<Sighting>,
}
