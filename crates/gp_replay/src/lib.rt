// The rules by which the events of a window may happen one after another, and the replay of a
// schedule by them. A state tells how many of its events each thread has done, the value of each
// variable, the holder and the readers of each lock and which threads are started. A thread does its own events in
// order, and none before it is started; a read finds what was last written, by whatever thread; an
// acquire finds its lock free; and a join finds its thread at its end. A schedule is feasible where
// each of its events may happen in turn, from the state in which its window begins.
#![tactic(auto)]

mod laws;
mod readers;
mod rule;
mod running;
mod schedule;
mod state;

pub use laws::{
    alike_states_step_alike, events_are_counted, events_happen_once, holders_acquired,
    holders_stay_alone, holds_are_traced, joins_come_last, locks_have_one_holder,
    parts_are_prefixes, prefixes_are_feasible, readers_acquired, reads_find_last_writes,
    replay_means_feasible, schedules_read_exactly, starts_come_first, states_begin_as_windows,
    threads_are_started, values_are_last_writes,
};
pub use readers::Readers;
pub use rule::{Rule, StepFault};
pub use running::{ReplayEnd, ReplayFault, replay};
pub use schedule::{ScheduleFault, WindowSchedule, read_schedule};
pub use state::State;
