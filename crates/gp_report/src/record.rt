ghost use Rattle.std.specs.Prelude.{◌≡◌};
ghost use Rattle.gp_report.specs.Entries.{entries_in, properties_in};

use gp_base::Row;
use gp_certificate::{Certificate, Step};
use gp_derivation::WorkerRecord;
use gp_text::Name;
use gp_window::{EventId, Schedule};

/// The greatest budget of a query.
pub const MOST_BUDGET: u64 = 1_000_000;

/// The most workers of a run.
pub const MOST_WORKERS: u32 = 16;

/// The most entries of a property in a window.
pub const MOST_ENTRIES: usize = 10_000;

/// The most events of an instance.
pub const MOST_EVENTS: usize = 6;

/// What is answered to an ask of a window. The records say of what is shown no more than its type.
#[derive(Drop)]
pub enum AnswerOf<S> {
    /// What shows it.
    Found(S),
    /// Steps whose last one refutes the query of the ask.
    Impossible(Certificate),
    /// The budget was spent: the worker, from 1, learned the entries `from..to` of its log.
    Undecided { worker: u32, from: u32, to: u32 },
}

/// The events of an ask and its answer.
#[derive(Drop)]
pub struct EntryOf<S> {
    pub events: Row<EventId>,
    pub answer: AnswerOf<S>,
}

/// What is answered for a property in a window.
#[derive(Drop)]
pub enum PropertyBodyOf<S> {
    /// There are more than 10,000 instances.
    TooMany,
    /// An entry for each instance, in their order.
    Entries(Row<EntryOf<S>>),
}

impl<S> PropertyBodyOf<S> {
    /// The entries, none where there are too many.
    pub fn entries(&self) -> &[EntryOf<S>]
        ensures { result.now ≡ entries_in self.now }
    {
        match self {
            PropertyBodyOf::TooMany => &[],
            PropertyBodyOf::Entries(entries) => entries.as_slice(),
        }
    }
}

/// A property in a window.
#[derive(Drop)]
pub struct PropertyRecordOf<S> {
    pub name: Name,
    pub body: PropertyBodyOf<S>,
}

/// What is answered for a window.
#[derive(Drop)]
pub enum WindowBodyOf<S> {
    /// The window has so many events, of which more than 2,048 are too many, and so many clauses were counted.
    TooLarge { events: u64, clauses: u64 },
    /// A record for each property, in their order.
    Answers(Row<PropertyRecordOf<S>>),
}

impl<S> WindowBodyOf<S> {
    /// The records of the properties, none where the window is too large.
    pub fn properties(&self) -> &[PropertyRecordOf<S>]
        ensures { result.now ≡ properties_in self.now }
    {
        match self {
            WindowBodyOf::TooLarge { .. } => &[],
            WindowBodyOf::Answers(properties) => properties.as_slice(),
        }
    }
}

/// A window, the steps that its certificates share, and what each of its workers did.
#[derive(Drop)]
pub struct WindowRecordOf<S> {
    pub number: u32,
    pub shared: Row<Step>,
    pub body: WindowBodyOf<S>,
    pub records: Row<WorkerRecord>,
}

/// The answer to an instance, which a schedule shows to be possible.
pub type Answer = AnswerOf<Schedule>;

pub type Entry = EntryOf<Schedule>;

pub type PropertyBody = PropertyBodyOf<Schedule>;

pub type PropertyRecord = PropertyRecordOf<Schedule>;

pub type WindowBody = WindowBodyOf<Schedule>;

pub type WindowRecord = WindowRecordOf<Schedule>;
