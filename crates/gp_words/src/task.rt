ghost use Rattle.std.specs.Prelude.{◌≡◌};
ghost use Rattle.gp_words.specs.Command.{task_named};

/// What the program is asked to do.
#[derive(Clone, Copy, Debug, PartialEq, Eq)]
pub enum Task {
    /// To answer each instance of each property in each window.
    Analyse,
    /// To list these instances.
    List,
    /// To say whether a schedule can happen.
    Replay,
    /// To check the evidence in a report again.
    Check,
    /// To make a recording, and properties for it.
    Make,
    /// To print a report with its shared steps once.
    Compact,
    /// To say of each window whether it leads on to the next.
    Link,
    /// To say which threads can come to wait for each other's locks.
    Stuck,
    /// To answer each instance of each property, where each wake needs a signal.
    Notify,
    /// To answer what an earlier report does not answer any more, or yet.
    Resume,
}

/// The task of this name.
pub fn task_named(name: &str) -> Option<Task>
    ensures { result ≡ task_named name.now }
{
    match name {
        "analyse" => Some(Task::Analyse),
        "list" => Some(Task::List),
        "replay" => Some(Task::Replay),
        "check" => Some(Task::Check),
        "make" => Some(Task::Make),
        "compact" => Some(Task::Compact),
        "link" => Some(Task::Link),
        "stuck" => Some(Task::Stuck),
        "notify" => Some(Task::Notify),
        "resume" => Some(Task::Resume),
        _ => None,
    }
}
