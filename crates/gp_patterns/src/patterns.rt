ghost use Rattle.std.specs.Prelude.{◌≡◌, ◌≤◌, All, length};
ghost use Rattle.gp_property.specs.Property.{IsProperty};

use crate::encoding::{encode_window, is_large};
use gp_analysis::{EncodeFault, Question};
use gp_base::Row;
use gp_certificate::Step;
use gp_clause::{Problem, Query, Valuation};
use gp_constraint::{Encoded, problems_are_valid, query};
use gp_instance::{Instance, InstancesFault, instances};
use gp_property::{Property, atoms_kept};
use gp_report::Answer;
use gp_text::Name;
use gp_window::{Schedule, Window};
use gp_witness::{schedule_of, schedules_are_complete};
use std::alloc::{AllocError, Global};

/// The question which instances of these properties are possible.
#[derive(Drop)]
pub struct Patterns<'a> {
    properties: &'a [Property],
    ghost few: { length properties.now ≤ 64 },
}

impl<'a> Patterns<'a> {
    pub fn of(properties: &'a [Property]) -> Patterns<'a>
        requires { length properties.now ≤ 64 }
        ensures { result.properties.now ≡ properties.now }
    {
        Patterns { properties }
    }
}

// A law: properties keep the rules of the language.
fn keep_rules(properties: &[Property])
    ensures { All IsProperty properties.now }
{
    let mut left = properties;
    while let Some((property, more)) = left.split_first() {
        property.keeps_rules();
        left = more;
    }
}

impl<'a> Question for Patterns<'a> {
    type Subject = Property;

    type Encoded = Encoded;

    type Shown = Schedule;

    ghost use Rattle.gp_instance.specs.ListedLaws.{IsListed};
    ghost use Rattle.gp_patterns.specs.Question.{patterns};

    ghost form = { λ question. patterns question.properties.now };

    ghost lists = { λ _. IsListed };

    ghost window_in = { λ encoded. encoded };

    fn subjects(&self) -> &[Property] {
        self.properties
    }

    fn name(&self, subject: &Property) -> Name {
        *subject.name()
    }

    fn is_large(&self, window: &Window) -> bool {
        is_large(window)
    }

    fn encode(&self, alloc: Global, window: Window) -> Result<Encoded, EncodeFault> {
        encode_window(alloc, window)
    }

    fn window_of<'b>(&self, encoded: &'b Encoded) -> &'b Window {
        encoded.window()
    }

    fn problem<'b>(&self, encoded: &'b Encoded) -> &'b Problem {
        encoded.problem()
    }

    fn shared(&self, alloc: Global, _encoded: &Encoded) -> Result<Row<Step>, AllocError> {
        Ok(Row::new(alloc))
    }

    fn asks(
        &self,
        alloc: Global,
        window: &Window,
        subject: &Property,
        number: u32,
    ) -> Result<Row<Instance>, InstancesFault> {
        instances(alloc, window, subject, number)
    }

    fn given(
        &self,
        _alloc: Global,
        _encoded: &Encoded,
        _subject: &Property,
        _ask: &Instance,
    ) -> Result<Option<Answer>, AllocError> {
        Ok(None)
    }

    fn query(
        &self,
        alloc: Global,
        encoded: &Encoded,
        subject: &Property,
        ask: &Instance,
    ) -> Result<Query, AllocError> {
        query(alloc, encoded, subject, ask)
    }

    fn shown(
        &self,
        alloc: Global,
        encoded: &Encoded,
        subject: &Property,
        ask: &Instance,
        valuation: &Valuation,
    ) -> Result<Schedule, AllocError> {
        schedule_of(alloc, encoded, subject, ask, valuation)
    }

    fn laws(&self) {
        keep_rules(self.properties);
        problems_are_valid();
        atoms_kept();
        schedules_are_complete();
    }
}
