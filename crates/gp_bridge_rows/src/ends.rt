ghost use Rattle.std.specs.Prelude.{◌≡◌, None, Some};

use crate::giving::{given_by, query_of, shown_by};
use crate::listing::ends_listed;
use gp_analysis::{EncodeFault, Question};
use gp_base::Row;
use gp_certificate::Step;
use gp_clause::{Problem, Query, Valuation};
use gp_constraint::{Encoded, problems_are_valid};
use gp_instance::{Instance, InstancesFault};
use gp_patterns::{encode_window, is_large};
use gp_replay::replay_means_feasible;
use gp_report::Answer;
use gp_text::Name;
use gp_window::{Schedule, Window};
use gp_witness::schedules_are_complete;
use std::alloc::{AllocError, Global};
use std::slice::from_ref;

/// The question which threads can come to the end of their segment. Its one subject has a name, and asks in each window for
/// the last event of each thread that has events there.
#[derive(Drop)]
pub struct Ends {
    name: Name,
    kept: Option<Schedule>,
}

impl Ends {
    pub fn named(name: Name) -> Ends
        ensures name { result.name ≡ name }
        ensures kept { result.kept ≡ None }
    {
        Ends { name, kept: None }
    }

    /// The question with a schedule: the ends that this reaches are found already, in each window in which it replays.
    pub fn with(self, schedule: Schedule) -> Ends
        ensures name { result.name ≡ self.name }
        ensures kept { result.kept ≡ Some schedule }
    {
        let Ends { name, kept: _ } = self;
        Ends {
            name,
            kept: Some(schedule),
        }
    }
}

impl Question for Ends {
    type Subject = Name;

    type Encoded = Encoded;

    type Shown = Schedule;

    ghost use Rattle.gp_bridge_rows.specs.Ends.{IsEnd};
    ghost use Rattle.gp_bridge_rows.specs.Question.{ending};

    ghost form = { λ question. ending question.name question.kept };

    ghost lists = { λ _ window _ ids. IsEnd window ids };

    ghost window_in = { λ encoded. encoded };

    fn subjects(&self) -> &[Name] {
        from_ref(&self.name)
    }

    fn name(&self, subject: &Name) -> Name {
        *subject
    }

    fn is_large(&self, window: &Window) -> bool {
        is_large(window)
    }

    /// A window has the constraints that it has for patterns.
    fn encode(&self, alloc: Global, window: Window) -> Result<Encoded, EncodeFault> {
        encode_window(alloc, window)
    }

    fn window_of<'b>(&self, encoded: &'b Encoded) -> &'b Window {
        encoded.window()
    }

    fn problem<'b>(&self, encoded: &'b Encoded) -> &'b Problem {
        encoded.problem()
    }

    fn shared(&self, alloc: Global, _encoded: &Encoded) -> Result<Row<Step>, AllocError> {
        Ok(Row::new(alloc))
    }

    fn asks(
        &self,
        alloc: Global,
        window: &Window,
        _subject: &Name,
        number: u32,
    ) -> Result<Row<Instance>, InstancesFault> {
        ends_listed(alloc, window, number)
    }

    fn given(
        &self,
        alloc: Global,
        encoded: &Encoded,
        _subject: &Name,
        ask: &Instance,
    ) -> Result<Option<Answer>, AllocError> {
        given_by(alloc, encoded.window(), ask.events.as_slice(), &self.kept)
    }

    fn query(
        &self,
        alloc: Global,
        encoded: &Encoded,
        _subject: &Name,
        ask: &Instance,
    ) -> Result<Query, AllocError> {
        query_of(alloc, encoded, ask.events.as_slice())
    }

    fn shown(
        &self,
        alloc: Global,
        encoded: &Encoded,
        _subject: &Name,
        ask: &Instance,
        valuation: &Valuation,
    ) -> Result<Schedule, AllocError> {
        shown_by(alloc, encoded, ask.events.as_slice(), valuation)
    }

    fn laws(&self) {
        problems_are_valid();
        replay_means_feasible();
        schedules_are_complete();
    }
}
