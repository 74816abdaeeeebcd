use crate::fact::Fact;
use gp_base::Row;
use gp_constraint::BaseFamily;
use gp_window::EventId;

/// What a step rests on.
#[derive(Drop)]
pub enum Ground {
    /// A clause of the window, which says that one of these facts holds.
    Base(BaseFamily, Row<Fact>),
    /// The step at this place of the reason, from 0.
    Earlier(u64),
    /// Every clause of the window, and every step of its own list before it: the step cites none by number.
    Everything,
    /// The order within threads alone: the clauses that the step cites force nothing from what it denies.
    ThreadOrder,
}

/// A step of a reason: a clause that follows from its grounds.
#[derive(Drop)]
pub struct ReasonStep {
    /// The number by which the certificate cites it: the clauses of the window count first, from 0, then the steps that the
    /// certificates of the window share, and then the certificate's own.
    pub number: u64,
    /// One of these facts holds.
    pub says: Row<Fact>,
    pub grounds: Row<Ground>,
    /// Events that would lie on a cycle, each before the next and the last before the first, if none of the facts held: the clauses
    /// that the step cites would force it. There are none where these make one of them false, or where what they force says no cycle.
    /// Of a step that cites none by number they are looked for in what the step denies alone.
    pub cycle: Row<EventId>,
}

/// Why an instance is impossible.
#[derive(Drop)]
pub struct Reason {
    /// What would have to hold, all of it, and cannot.
    pub assumed: Row<Fact>,
    /// The last step of the certificate, and before it those on which it rests, in their order.
    pub steps: Row<ReasonStep>,
}
