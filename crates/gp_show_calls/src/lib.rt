// The public calls that tell people of an answer, each once more. A function here hands on one call of a crate below under that
// call's own contract, word for word, and adds nothing; no crate uses it. The wrong bodies that stand beside it turn what a call
// means, and the contract refuses each, as it would in the crate below, which is so proved once and not again for its wrong
// bodies. A contract that is weakened below no longer gives what is promised here.
#![tactic(auto)]

mod drawings;
mod instances;
mod overviews;
mod places;
mod reasons;
mod values;

pub use drawings::{draw, put_escaped};
pub use instances::put_answered;
pub use overviews::put_table;
pub use places::{put_behind, put_named};
pub use reasons::{cycle_of, forced, put_reason, put_story, reason};
pub use values::{put_result, put_string, put_value};
