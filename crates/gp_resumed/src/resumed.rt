ghost use Rattle.std.specs.Prelude.{◌≡◌, ◌≤◌, All, IfOk, None, length};
ghost use Rattle.std.specs.List.{enumerate_from};
ghost use Rattle.gp_property.specs.Property.{IsProperty};
ghost use Rattle.gp_resume.specs.KeptForm.{IsKept};

use crate::naming::Naming;
use crate::numbered::{Numbered, number_all};
use gp_analysis::{EncodeFault, Question};
use gp_base::Row;
use gp_certificate::{Step, refuted_over_means};
use gp_clause::{Problem, Query, Valuation};
use gp_constraint::{Encoded, problems_are_valid, query};
use gp_instance::{Instance, InstancesFault, instances};
use gp_patterns::{encode_window, is_large};
use gp_property::{Property, atoms_kept};
use gp_report::{Answer, Report};
use gp_resume::{Kept, keep, kept_holds};
use gp_text::Name;
use gp_window::{Schedule, Window};
use gp_witness::{schedule_of, schedules_are_complete};
use std::alloc::{AllocError, Global};
use std::marker::PhantomData;

// The question which instances of these properties are possible, where an old report may have answered some.
#[derive(Drop)]
pub(crate) struct Resumed<'a, N: Naming> {
    subjects: Vec<Numbered<'a>>,
    properties: &'a [Property],
    old: &'a Report,
    naming: PhantomData<N>,
    ghost properties_are: { properties.now ≡ N.properties },
    ghost old_is: { old.now ≡ N.old },
    ghost numbered: { subjects.items ≡ enumerate_from 0 N.properties },
    ghost few: { length N.properties ≤ 64 },
}

// A window with its constraints, and what is kept of it.
#[derive(Drop)]
pub(crate) struct ResumedWindow<'a, N: Naming> {
    encoded: Encoded,
    kept: Kept<'a>,
    naming: PhantomData<N>,
    ghost kept_is: { IsKept N.old encoded N.properties kept },
}

impl<'a, N: Naming> Resumed<'a, N> {
    pub(crate) fn of(
        alloc: Global,
        properties: &'a [Property],
        old: &'a Report,
    ) -> Result<Resumed<'a, N>, AllocError>
        requires few { length properties.now ≤ 64 }
        requires properties { properties.now ≡ N.properties }
        requires old { old.now ≡ N.old }
    {
        let subjects = number_all(alloc, properties)?;
        Ok(Resumed {
            subjects,
            properties,
            old,
            naming: PhantomData,
        })
    }
}

// A law: properties keep the rules of the language.
fn keep_rules(properties: &[Property])
    ensures { All IsProperty properties.now }
{
    let mut left = properties;
    while let Some((property, more)) = left.split_first() {
        property.keeps_rules();
        left = more;
    }
}

impl<'a, N: Naming> Question for Resumed<'a, N> {
    type Subject = Numbered<'a>;

    type Encoded = ResumedWindow<'a, N>;

    type Shown = Schedule;

    ghost use Rattle.gp_resumed.specs.Question.{IsAskOf, resumed};

    ghost form = { λ _. resumed N.properties N.old };

    ghost lists = { λ _. IsAskOf N.properties };

    ghost window_in = { λ window. window.encoded };

    fn subjects(&self) -> &[Numbered<'a>] {
        self.subjects.as_slice()
    }

    fn name(&self, subject: &Numbered<'a>) -> Name {
        *subject.property.name()
    }

    fn is_large(&self, window: &Window) -> bool {
        is_large(window)
    }

    fn encode(&self, alloc: Global, window: Window) -> Result<ResumedWindow<'a, N>, EncodeFault> {
        let encoded = encode_window(alloc, window)?;
        match keep(alloc, &encoded, self.properties, self.old) {
            Ok(kept) => Ok(ResumedWindow {
                encoded,
                kept,
                naming: PhantomData,
            }),
            Err(AllocError) => {
                drop(encoded);
                Err(EncodeFault::Memory)
            }
        }
    }

    fn window_of<'b>(&self, window: &'b ResumedWindow<'a, N>) -> &'b Window {
        window.encoded.window()
    }

    fn problem<'b>(&self, window: &'b ResumedWindow<'a, N>) -> &'b Problem {
        window.encoded.problem()
    }

    fn shared(
        &self,
        alloc: Global,
        window: &ResumedWindow<'a, N>,
    ) -> Result<Row<Step>, AllocError> {
        window.kept.shared(alloc)
    }

    fn asks(
        &self,
        alloc: Global,
        window: &Window,
        subject: &Numbered<'a>,
        _number: u32,
    ) -> Result<Row<Instance>, InstancesFault> {
        instances(alloc, window, subject.property, subject.number)
    }

    fn given(
        &self,
        alloc: Global,
        window: &ResumedWindow<'a, N>,
        subject: &Numbered<'a>,
        ask: &Instance,
    ) -> Result<Option<Answer>, AllocError> {
        let events = ask.events.as_slice();
        window.kept.answer(alloc, subject.number, events)
    }

    fn query(
        &self,
        alloc: Global,
        window: &ResumedWindow<'a, N>,
        subject: &Numbered<'a>,
        ask: &Instance,
    ) -> Result<Query, AllocError> {
        query(alloc, &window.encoded, subject.property, ask)
    }

    fn shown(
        &self,
        alloc: Global,
        window: &ResumedWindow<'a, N>,
        subject: &Numbered<'a>,
        ask: &Instance,
        valuation: &Valuation,
    ) -> Result<Schedule, AllocError> {
        schedule_of(alloc, &window.encoded, subject.property, ask, valuation)
    }

    fn laws(&self) {
        keep_rules(self.properties);
        problems_are_valid();
        atoms_kept();
        schedules_are_complete();
        refuted_over_means();
        kept_holds();
    }
}
