// The schedule of a found instance as a story, in values and not yet as text. Each event of the schedule is a line: what
// the event looks back at, as a read at the last write of its variable, who started its thread, whether it is one of the
// instance's events, and whether it does what other threads may see. Neighbouring lines of one thread that say none of
// this are folded into one part.
#![tactic(auto)]

mod deeds;
mod folding;
mod laws;
mod past;
mod sharing;
mod story;
mod telling;

pub use laws::{sources_are_last_writes, stories_tell_each_once, tells_examples};
pub use story::{Part, Source, Story, StoryLine};
pub use telling::tell;
