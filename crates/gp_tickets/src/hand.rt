use std::collections::LinkedList;

/// What a drawer knows. No value of it is made.
pub struct Hand {
    /// The numbers to draw are those below this one.
    pub count: u64,
    /// All drawers of these tickets.
    pub crew: u64,
    /// What was drawn, in order.
    pub drawn: LinkedList<u64>,
    /// How often it was told that no number is left.
    pub nones: u64,
    /// The drawers that it stands for.
    pub drawers: u64,
}
