// What of an old report is kept for a recording that has grown or changed. An old answer is found by its window's number,
// its property's name and its events, whatever the old report is of, and kept only where it stands in the window as it is now:
// a schedule that is feasible and matches, or a certificate that refutes the query over the old shared list, which passes.
#![tactic(auto)]

mod answers;
mod copying;
mod keeping;
mod kept;
mod laws;
mod old;
mod testing;

pub use keeping::keep;
pub use kept::Kept;
pub use laws::{all_is_kept, kept_holds};
