use gp_base::Row;
use gp_certificate::Certificate;
use gp_derivation::LogEntry;
use gp_window::Schedule;

/// Whether a window is linked to the next.
#[derive(Drop)]
pub enum LinkAnswer {
    /// This schedule links the two.
    Linked(Schedule),
    /// No schedule does.
    Unlinkable(Certificate),
    /// The entries `from..to` of the log of the search spent the budget.
    Undecided {
        log: Row<LogEntry>,
        from: u32,
        to: u32,
    },
    /// There are more than 2,048 events, and no clause was counted; or more than 500,000 clauses, of which the first 500,001
    /// were counted.
    TooLarge {
        events: u64,
        clauses: u64,
    },
}

/// An answer for each window of a recording but the last, in order, with the budget of each.
#[derive(Drop)]
pub struct LinkReport {
    pub budget: u64,
    pub links: Row<LinkAnswer>,
}
