// The command lines of the three programs: gpredict's, which says the task, the folder that it is asked of and its numbers; gpshow's,
// which says how the report in a folder is shown and which of its instances; and gpshards', which says which part of a recording is cut
// out and into which folder, or the folders of the parts whose reports are merged.
//
// The words give a program's options, each at most once and in any order, and plain words: of gpredict and gpshow one, the folder; of
// gpshards the folder of the recording and then those of its parts, no two of them the same. The folder must be given, and to gpredict and
// gpshards the task. `--name=value` and `--name value` both give an option its value, and `--` ends the options: every word after it is
// plain. A name that is no option of the program, an abbreviation included, a value that is missing, is of no task, style or answer or is no
// canonical decimal in its range, and whatever is given twice refuse the whole command line, also at an option that the task does not use.
// A command borrows its text from the words, so that only a list of folders wants memory.
#![tactic(auto)]

mod argument;
mod command;
mod forms;
mod number;
mod order;
mod reading;
mod sharding;
mod showing;
mod task;
mod value;

pub use command::{Command, command_of};
pub use forms::words_are_read;
pub use order::words_in_any_order;
pub use sharding::{CutCommand, MergeCommand, ShardCommand, shard_command_of};
pub use showing::{AnswerKind, ShowCommand, Style, show_command_of};
pub use task::Task;
