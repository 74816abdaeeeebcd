/// What a variable stands for, of points by their numbers.
#[derive(Clone, Copy, PartialEq, Eq, Hash)]
pub enum Symbol {
    /// The event is executed.
    Executed(u32),
    /// The first event, of the lesser point, is before the second.
    Order(u32, u32),
    /// The read sees the value of the write.
    Choice(u32, u32),
    /// The read sees the start value.
    StartChoice(u32),
    /// The section that the first event begins comes before that of the second.
    First(u32, u32),
    /// The write is the last to its variable, but for writes of the same value.
    Last(u32),
    /// The wake takes the signal of the event.
    Signal(u32, u32),
    /// The first place minus the second is at most the width.
    Span(u32, u32, u32),
}

/// A symbol, or its negation.
#[derive(Clone, Copy)]
pub struct SymbolicLit {
    pub symbol: Symbol,
    pub positive: bool,
}
