use gp_text::Name;

/// What an operation on one object, a condition, does to it.
#[derive(Clone, Copy)]
pub enum Call {
    /// The thread begins to wait for a signal of the condition.
    Sleep(Name),
    /// The thread was woken by a signal of the condition.
    Wake(Name),
    /// Signals the condition to one thread that waits.
    Notify(Name),
    /// Signals the condition to all threads that wait.
    NotifyAll(Name),
}
