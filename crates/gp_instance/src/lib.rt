// Instances: the choices of events of a window that a pattern may speak of, and where a schedule
// matches one.
//
// An instance has one event of the window for each atom of the pattern, under six conditions: kinds,
// names and constants; parameters; threads; regions; no event twice; and the order of each thread.
// `instances` lists all of them in lexicographic order. First each atom's events lose those that have
// no partner among another atom's, by thread, place, region and parameters. Then a search chooses the
// events atom by atom and keeps for each later atom the events that may still stand beside those
// chosen; it gives a choice up where an atom has none left, where some thread variables have fewer
// threads in all than they are, or where just so much was left before and nothing came of it. `matches` says whether the events of an instance stand in a schedule
// as the pattern wants: step after step, and those of a group next to one another.
#![tactic(auto)]

mod beside;
mod candidate;
mod chosen;
mod dead_ends;
mod instance;
mod key;
mod laws;
mod link;
mod matching;
mod partners;
mod region;
mod search;
mod segments;
mod shape;
mod span;
mod thinning;
mod threads;

pub use instance::{Instance, InstancesFault, MOST_INSTANCES, instances};
pub use laws::{groups_stand_in_rows, lists_exactly, matches_means, regions_close_as_begun};
pub use matching::{is_one_for_each, matches};
