ghost use Rattle.std.specs.Prelude.{◌≡◌, true, IfOk, codes};
ghost use Rattle.gp_clause.specs.Valuation.{Meets};
ghost use Rattle.gp_constraint.specs.Base.{base_of};
ghost use Rattle.gp_stuck.specs.Cycle.{is_cycle};
ghost use Rattle.gp_stuck.specs.Stuck.{EndsStuck};
ghost use Rattle.gp_stuck.specs.StuckQuery.{stuck_query_of};

use crate::laws::stuck_cycles_are_answered;
use gp_analysis::{EncodeFault, Question};
use gp_base::Row;
use gp_certificate::Step;
use gp_clause::{Problem, Query, Valuation};
use gp_constraint::{Encoded, problems_are_valid};
use gp_instance::{Instance, InstancesFault};
use gp_patterns::{encode_window, is_large};
use gp_report::Answer;
use gp_stuck::{cycles, cycles_are_listed, stuck_queries_are_valid, stuck_query};
use gp_text::Name;
use gp_window::{Schedule, Window};
use gp_witness::executed_of;
use std::alloc::{AllocError, Global};
use std::slice::from_ref;

/// The question which cycles of waiting threads are stuck. Its one subject is named `deadlock`, and asks in each window for each
/// cycle.
#[derive(Drop)]
pub struct Deadlocks {
    name: Name,
    ghost named: { name ≡ codes "deadlock" },
}

impl Deadlocks {
    pub fn new() -> Deadlocks {
        let name = deadlock();
        Deadlocks { name }
    }
}

fn deadlock() -> Name
    ensures { result ≡ codes "deadlock" }
{
    Name::of(b"deadlock").unwrap()
}

/// A feasible schedule that ends stuck, from a valuation of the query of a cycle.
fn shown_by(
    alloc: Global,
    encoded: &Encoded,
    cycle: &Instance,
    valuation: &Valuation,
) -> Result<Schedule, AllocError>
    requires cycle { is_cycle encoded.now cycle.now.events ≡ true }
    requires meets { Meets (base_of encoded.now) (stuck_query_of encoded.now cycle.now.events) valuation.now }
    ensures { IfOk result (λ schedule. EndsStuck encoded.now cycle.now.events schedule.events) }
{
    stuck_cycles_are_answered();
    encoded.window().comes_from_recording();
    let schedule = executed_of(alloc, encoded, valuation)?;
    Ok(schedule)
}

impl Question for Deadlocks {
    type Subject = Name;

    type Encoded = Encoded;

    type Shown = Schedule;

    ghost use Rattle.std.specs.Prelude.{◌≡◌, true};
    ghost use Rattle.gp_stuck.specs.Cycle.{is_cycle};
    ghost use Rattle.gp_deadlocks.specs.Question.{deadlocks};

    ghost form = { λ _. deadlocks };

    ghost lists = { λ _ window _ ids. is_cycle window ids ≡ true };

    ghost window_in = { λ encoded. encoded };

    fn subjects(&self) -> &[Name] {
        from_ref(&self.name)
    }

    fn name(&self, subject: &Name) -> Name {
        *subject
    }

    fn is_large(&self, window: &Window) -> bool {
        is_large(window)
    }

    /// A window has the constraints that it has for patterns.
    fn encode(&self, alloc: Global, window: Window) -> Result<Encoded, EncodeFault> {
        encode_window(alloc, window)
    }

    fn window_of<'b>(&self, encoded: &'b Encoded) -> &'b Window {
        encoded.window()
    }

    fn problem<'b>(&self, encoded: &'b Encoded) -> &'b Problem {
        encoded.problem()
    }

    fn shared(&self, alloc: Global, _encoded: &Encoded) -> Result<Row<Step>, AllocError> {
        Ok(Row::new(alloc))
    }

    fn asks(
        &self,
        alloc: Global,
        window: &Window,
        _subject: &Name,
        _number: u32,
    ) -> Result<Row<Instance>, InstancesFault> {
        cycles(alloc, window)
    }

    fn given(
        &self,
        _alloc: Global,
        _encoded: &Encoded,
        _subject: &Name,
        _ask: &Instance,
    ) -> Result<Option<Answer>, AllocError> {
        Ok(None)
    }

    fn query(
        &self,
        alloc: Global,
        encoded: &Encoded,
        _subject: &Name,
        ask: &Instance,
    ) -> Result<Query, AllocError> {
        stuck_query(alloc, encoded, ask)
    }

    fn shown(
        &self,
        alloc: Global,
        encoded: &Encoded,
        _subject: &Name,
        ask: &Instance,
        valuation: &Valuation,
    ) -> Result<Schedule, AllocError> {
        shown_by(alloc, encoded, ask, valuation)
    }

    fn laws(&self) {
        problems_are_valid();
        cycles_are_listed();
        stuck_queries_are_valid();
        stuck_cycles_are_answered();
    }
}
