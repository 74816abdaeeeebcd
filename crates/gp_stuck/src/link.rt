use gp_text::Name;
use gp_trace::LockMode;

/// How some event of a thread waits: it takes the lock as it is wanted, while its thread holds another one so.
#[derive(Clone, Copy)]
pub struct Link {
    pub thread: u32,
    pub held: Name,
    pub mode: LockMode,
    pub lock: Name,
    pub wanted: LockMode,
}

/// A thread that holds a lock so while it waits for what the first event of a chain holds.
#[derive(Clone, Copy)]
pub struct Closer {
    pub thread: u32,
    pub mode: LockMode,
}

/// A thread that holds a lock so while it waits for what these other threads hold, each of which can close a chain.
#[derive(Clone, Copy)]
pub struct Step {
    pub thread: u32,
    pub mode: LockMode,
    pub others: Others,
}

/// Threads, as far as a chain asks: no more than one of them can have passed before them.
#[derive(Clone, Copy)]
pub enum Others {
    Nobody,
    One(u32),
    Several,
}
