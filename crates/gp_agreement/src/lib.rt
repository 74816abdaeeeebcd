// Reports of one recording never contradict each other, whatever was asked; a budget that is enough decides; and what a task
// tells, task check accepts: laws above the tasks, on which nothing stands.
#![tactic(auto)]

mod laws;

pub use laws::{
    answers_agree, enough_decides, links_agree, links_decide, patterns_follow, questions_are_alike,
    runs_agree, tasks_agree, tasks_decide, told_is_accepted, written_is_held,
};
