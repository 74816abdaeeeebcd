// The report of a whole recording out of the reports of its parts: window after window, under the numbers that the windows have
// there, without what is told of the stages. Where each part's report is accepted for its part, the merged one is accepted for the
// whole, so each of its answers is true there.
#![tactic(auto)]

mod checking;
mod laws;
mod merging;

pub use checking::{CheckedMerge, PartFailure, merge_checked};
pub use laws::{merged_is_accepted, merged_is_report, merges_examples};
pub use merging::{PartReport, merge};
