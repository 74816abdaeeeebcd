// The file `shard` of a folder that holds a part of a recording: which part it is, of how many, and which windows it has.
//
//     gpshard 1
//     part I N
//     windows A COUNT E
//
// says that the folder holds part I of N of a recording of E windows, namely COUNT windows from window A on. A part may have no window; then
// A is the one that would come next. N and E are at most 4,096. A text that says no part is refused with its first bad line: each rule of a
// part is one of a single line.
#![tactic(auto)]

mod laws;
mod printing;
mod reading;
mod shard;

pub use laws::{read_is_shard, shards_are_spelled, shards_examples};
pub use printing::{print_shard, shards_read_again};
pub use reading::{ShardFault, read_shard};
pub use shard::Shard;
