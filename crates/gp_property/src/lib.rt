// Properties: the patterns that a user looks for in the runs of a recording, and their file format.
//
// A property has a name, the events that its pattern speaks of, and the pattern, which is a list of
// steps. The steps happen one after another; a step of several atoms is a group, whose events happen
// at neighbouring places in any order. An atom names one of the events and the thread variable that
// its event runs in, and it may open or close a numbered region. A reader tells the first line that
// breaks a rule of the format, and a printer writes the one plain text that is read as the property.
#![tactic(auto)]

mod atom;
mod atoms;
mod checks;
mod fault;
mod laws;
mod pattern;
mod printing;
mod property;
mod reading;
mod shape;
mod term;

pub use atoms::{PatternAtom, atoms_of};
pub use fault::PropertyFault;
pub use laws::{atoms_kept, property_again, reads_exactly};
pub use printing::print_property;
pub use property::{
    Atom, EventDef, MOST_ATOMS, MOST_EVENTS, MOST_GROUPED, MOST_PROPERTIES, PatternStep, Property,
    Shape, Term, ThreadTerm, ValueTerm,
};
pub use reading::read_properties;
