/// What a thread of the simulated program does at one step.
#[derive(Clone, Copy)]
pub(crate) enum Action {
    /// It starts the thread of this number.
    Start(u32),
    /// It uses the object.
    Use,
    /// It authorises the object.
    Authorise,
    /// It takes the lock of this number.
    Acquire(u32),
    /// It gives back the lock of this number.
    Release(u32),
    /// It reads this variable, and finds this value.
    Read(u32, u32),
    /// It writes to this variable this value.
    Write(u32, u32),
}

/// One step of the simulated program.
#[derive(Clone, Copy)]
pub(crate) struct Event {
    pub(crate) thread: u32,
    pub(crate) action: Action,
}
