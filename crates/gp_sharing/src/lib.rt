// The steps that a window's certificates share: those that rest on the constraints alone stand once, in a list of their own, and
// are cited by number.
//
// Steps are moved certificate by certificate, the first equal one standing for each. A certificate is told over the whole list in
// the end: the steps that moved are left out, and all hints are renumbered.
#![tactic(auto)]

mod moving;
mod renumbering;
mod shared_list;
mod sharing;
mod sizes;

pub use renumbering::compact_steps;
pub use shared_list::SharedList;
pub use sizes::Sizes;
