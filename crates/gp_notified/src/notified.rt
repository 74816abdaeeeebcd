ghost use Rattle.std.specs.Prelude.{◌≡◌, ◌≤◌, IfOk, length};
ghost use Rattle.gp_constraint.specs.Query.{query_of};
ghost use Rattle.gp_notify.specs.Extended.{lift};

use crate::encoding::encode;
use crate::laws::signals_are_answered;
use crate::paired::Paired;
use crate::showing::shown_by;
use gp_analysis::{EncodeFault, Question};
use gp_base::Row;
use gp_certificate::Step;
use gp_clause::{Problem, Query, Valuation};
use gp_constraint::query;
use gp_instance::{Instance, InstancesFault, instances};
use gp_notify::{NotifyProblem, extended_is_valid};
use gp_patterns::{Patterns, is_large};
use gp_property::Property;
use gp_report::AnswerOf;
use gp_text::Name;
use gp_window::Window;
use std::alloc::{AllocError, Global};

/// The question which instances of these properties are possible where each wake needs a signal.
#[derive(Drop)]
pub struct Notified<'a> {
    properties: &'a [Property],
    ghost few: { length properties.now ≤ 64 },
}

impl<'a> Notified<'a> {
    pub fn of(properties: &'a [Property]) -> Notified<'a>
        requires { length properties.now ≤ 64 }
        ensures { result.properties.now ≡ properties.now }
    {
        Notified { properties }
    }
}

/// The query of an instance, as one to the window with its signals.
fn lifted_query(
    alloc: Global,
    extended: &NotifyProblem,
    property: &Property,
    instance: &Instance,
) -> Result<Query, AllocError>
    ensures { IfOk result (λ query. query ≡ lift extended.now (query_of extended.now property.now instance.now.events)) }
{
    let asked = query(alloc, extended.encoded(), property, instance)?;
    let lifted = extended.lift(alloc, asked)?;
    Ok(lifted)
}

impl<'a> Question for Notified<'a> {
    type Subject = Property;

    type Encoded = NotifyProblem;

    type Shown = Paired;

    ghost use Rattle.gp_instance.specs.ListedLaws.{IsListed};
    ghost use Rattle.gp_notified.specs.Question.{notified};

    ghost form = { λ question. notified question.properties.now };

    ghost lists = { λ _. IsListed };

    ghost window_in = { λ extended. extended };

    fn subjects(&self) -> &[Property] {
        self.properties
    }

    fn name(&self, subject: &Property) -> Name {
        *subject.name()
    }

    fn is_large(&self, window: &Window) -> bool {
        is_large(window)
    }

    fn encode(&self, alloc: Global, window: Window) -> Result<NotifyProblem, EncodeFault> {
        encode(alloc, window)
    }

    fn window_of<'b>(&self, extended: &'b NotifyProblem) -> &'b Window {
        extended.window()
    }

    fn problem<'b>(&self, extended: &'b NotifyProblem) -> &'b Problem {
        extended.problem()
    }

    fn shared(&self, alloc: Global, _extended: &NotifyProblem) -> Result<Row<Step>, AllocError> {
        Ok(Row::new(alloc))
    }

    fn asks(
        &self,
        alloc: Global,
        window: &Window,
        subject: &Property,
        number: u32,
    ) -> Result<Row<Instance>, InstancesFault> {
        instances(alloc, window, subject, number)
    }

    fn given(
        &self,
        _alloc: Global,
        _extended: &NotifyProblem,
        _subject: &Property,
        _ask: &Instance,
    ) -> Result<Option<AnswerOf<Paired>>, AllocError> {
        Ok(None)
    }

    fn query(
        &self,
        alloc: Global,
        extended: &NotifyProblem,
        subject: &Property,
        ask: &Instance,
    ) -> Result<Query, AllocError> {
        lifted_query(alloc, extended, subject, ask)
    }

    fn shown(
        &self,
        alloc: Global,
        extended: &NotifyProblem,
        subject: &Property,
        ask: &Instance,
        valuation: &Valuation,
    ) -> Result<Paired, AllocError> {
        shown_by(alloc, extended, subject, ask, valuation)
    }

    fn laws(&self) {
        Patterns::of(self.properties).laws();
        extended_is_valid();
        signals_are_answered();
    }
}
