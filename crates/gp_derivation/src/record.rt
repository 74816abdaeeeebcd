ghost use Rattle.gp_derivation.specs.Spent.{SpentStays};

use crate::log::LogEntry;
use gp_base::Row;

/// A turn of a worker at the query with this ticket: the entries `begins..learned` of its log were taken in it, and
/// `learned..ends` were learned.
#[derive(Clone, Copy, PartialEq, Eq)]
pub struct Turn {
    pub ticket: u64,
    pub begins: u32,
    pub learned: u32,
    pub ends: u32,
}

/// What became of a clause at another worker's inbox.
#[derive(Clone, Copy, PartialEq, Eq)]
pub enum Sent {
    Pushed,
    Full,
}

/// The place of an entry that was offered, and one answer for each other worker, by number.
#[derive(Drop)]
pub struct Offered {
    pub entry: u32,
    pub sent: Row<Sent>,
}

/// What one worker did.
#[derive(Drop)]
pub struct WorkerRecord {
    pub log: Row<LogEntry>,
    pub turns: Row<Turn>,
    pub offered: Row<Offered>,
}

/// A law: a turn that is spent on some entries of a log stays so when the log grows.
pub fn spent_stays()
    ensures { SpentStays }
{}
