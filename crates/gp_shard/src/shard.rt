/// Which part of a recording a folder holds.
#[derive(Clone, Copy, PartialEq, Eq)]
pub struct Shard {
    /// The number of the part, from 1.
    pub part: u32,
    /// How many parts the recording has.
    pub parts: u32,
    /// How many windows of the recording are before those of the part.
    pub before: u32,
    /// How many windows the part has.
    pub count: u32,
    /// How many windows, and so epochs, the recording has.
    pub epochs: u32,
}
