ghost use Rattle.std.specs.Prelude.{◌≡◌, ◌&&◌, [], true, IfOk, cond};
ghost use Rattle.gp_constraint.specs.Base.{base_of};
ghost use Rattle.gp_constraint.specs.Query.{query_of};
ghost use Rattle.gp_decided.specs.Refuting.{refutes_over, shared_passes};
ghost use Rattle.gp_instance.specs.Instance.{is_instance};
ghost use Rattle.gp_instance.specs.Matches.{matches_events};
ghost use Rattle.gp_resume.specs.Standing.{is_feasible, stands};

use gp_certificate::{Certificate, Judge, Step};
use gp_constraint::{Encoded, problems_are_valid, query};
use gp_decided::{refutes_over, shared_passes};
use gp_instance::{Instance, matches};
use gp_property::{Property, atoms_kept};
use gp_replay::{ReplayFault, replay};
use gp_report::Answer;
use gp_window::{Schedule, Window};
use std::alloc::{AllocError, Global};
use std::marker::Model;

// By what old answers are tested: the constraints of a window, the shared list of its old record, and the judge of its
// problem.
#[derive(Drop)]
pub(crate) struct Test<'e, 'a> {
    encoded: &'e Encoded,
    shared: &'a [Step],
    passes: bool,
    judge: Judge,
}

impl<'e, 'a> Model for Test<'e, 'a> {
    ghost use Rattle.gp_resume.specs.TestForm.{IsTest, TestForm};

    ghost Value = { TestForm };

    ghost view = { λ t. record { window = t.encoded.now; shared = t.shared.now } };

    ghost invariant = { λ t. IsTest t.judge t.passes (record { window = t.encoded.now; shared = t.shared.now }) };
}

impl<'e, 'a> Test<'e, 'a> {
    pub(crate) fn new(
        alloc: Global,
        encoded: &'e Encoded,
        shared: &'a [Step],
    ) -> Result<Test<'e, 'a>, AllocError>
        ensures { IfOk result (λ test. test ≡ record { window = encoded.now; shared = shared.now }) }
    {
        let problem = encoded.problem();
        let mut judge = Judge::new(alloc, problem)?;
        match shared_passes(&mut judge, problem, shared) {
            Ok(passes) => Ok(Test {
                encoded,
                shared,
                passes,
                judge,
            }),
            Err(error) => {
                drop(judge);
                Err(error)
            }
        }
    }

    pub(crate) fn window(&self) -> &Window
        ensures { result.now ≡ self.now.window }
    {
        self.encoded.window()
    }

    // The shared list where it passes, else the empty one.
    pub(crate) fn kept_shared(&self) -> &'a [Step]
        ensures { result.now ≡ cond (shared_passes (base_of self.now.window) self.now.shared) self.now.shared [] }
    {
        if self.passes {
            return self.shared;
        }
        &[]
    }

    // Whether an answer to an instance stands.
    pub(crate) fn stands(
        &mut self,
        alloc: Global,
        property: &Property,
        instance: &Instance,
        answer: &Answer,
    ) -> Result<bool, AllocError>
        requires { is_instance self.old.window property.now instance.now.events ≡ true }
        ensures stands { IfOk result (λ told. told ≡ stands self.old.shared self.old.window property.now instance.now.events answer.now) }
        ensures same { self.new ≡ self.old }
    {
        match answer {
            Answer::Found(schedule) => is_shown(alloc, self.window(), property, instance, schedule),
            Answer::Impossible(certificate) => {
                self.is_refuted(alloc, property, instance, certificate)
            }
            Answer::Undecided { .. } => Ok(false),
        }
    }

    // Whether a certificate refutes the query of an instance over the shared list.
    fn is_refuted(
        &mut self,
        alloc: Global,
        property: &Property,
        instance: &Instance,
        certificate: &Certificate,
    ) -> Result<bool, AllocError>
        requires { is_instance self.old.window property.now instance.now.events ≡ true }
        ensures refuted { IfOk result (λ told. told ≡ refutes_over (base_of self.old.window) self.old.shared (query_of self.old.window property.now instance.now.events) certificate.now) }
        ensures same { self.new ≡ self.old }
    {
        if !self.passes {
            return Ok(false);
        }
        property.keeps_rules();
        atoms_kept();
        problems_are_valid();
        let query = query(alloc, self.encoded, property, instance)?;
        let problem = self.encoded.problem();
        let told = refutes_over(&mut self.judge, problem, self.shared, &query, certificate);
        drop(query);
        told
    }
}

// Whether a schedule is feasible and matches an instance.
fn is_shown(
    alloc: Global,
    window: &Window,
    property: &Property,
    instance: &Instance,
    schedule: &Schedule,
) -> Result<bool, AllocError>
    requires { is_instance window.now property.now instance.now.events ≡ true }
    ensures { IfOk result (λ shown. shown ≡ (is_feasible window.now schedule.now.events && matches_events property.now instance.now.events schedule.now.events)) }
{
    property.keeps_rules();
    atoms_kept();
    let feasible = is_feasible(alloc, window, schedule)?;
    Ok(feasible && matches(property, instance, schedule))
}

fn is_feasible(alloc: Global, window: &Window, schedule: &Schedule) -> Result<bool, AllocError>
    ensures { IfOk result (λ feasible. feasible ≡ is_feasible window.now schedule.now.events) }
{
    match replay(alloc, window, schedule) {
        Ok(end) => {
            drop(end);
            Ok(true)
        }
        Err(
            ReplayFault::Stuck {
                place: _place,
                rule: _rule,
            },
        ) => Ok(false),
        Err(ReplayFault::Memory) => Err(AllocError),
    }
}
