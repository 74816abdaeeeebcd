// Long recordings in parts: what one machine cannot analyse is cut into parts, each of which is a recording of its own, and the reports of
// the parts are merged into the report of the whole.
//
// `shards` writes a part of the recording in a folder into another folder, or reads the folders of all parts with their reports and tells
// the report of the whole. The frame is that of gpredict: stages that read a folder and stop with a refusal, and a result that tells itself
// to a sink. A file that breaks a rule is refused by its path, the line and the rule, before anything is written; a fault of the folder or
// of the sink is never told as an answer.
#![tactic(auto)]

mod content;
mod cutting;
mod finishing;
mod folders;
mod merging;
mod ordering;
mod refusal;
mod reports;
mod sparing;
mod stop;
mod top;
mod writing;

pub use refusal::{PartFault, ShardRefusal};
pub use top::shards;
