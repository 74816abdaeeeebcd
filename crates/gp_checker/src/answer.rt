ghost use Rattle.std.specs.Prelude.{◌≡◌, ◌≢◌, ◌+◌, true, IfOk, MatchOption};
ghost use Rattle.gp_instance.specs.Instance.{is_instance};
ghost use Rattle.gp_checker.specs.Finds.{FindsAnswer};

use crate::checker::Checker;
use crate::failure::{Failure, Reason};
use crate::schedule::check_schedule;
use gp_instance::Instance;
use gp_property::Property;
use gp_report::Answer;
use std::alloc::{AllocError, Global};

impl<'a> Checker<'a> {
    // How the answer to an instance fails.
    pub(crate) fn check_answer(
        &mut self,
        alloc: Global,
        property: &Property,
        instance: &Instance,
        answer: &Answer,
    ) -> Result<Option<Failure>, AllocError>
        requires { is_instance self.old.window property.now instance.now.events ≡ true }
        ensures found { IfOk result (FindsAnswer self.old property.now instance.now.events answer.now) }
        ensures same { self.new ≡ self.old }
    {
        match answer {
            Answer::Found(schedule) => {
                check_schedule(alloc, self.window(), property, instance, schedule)
            }
            Answer::Impossible(certificate) => {
                self.check_certificate(alloc, property, instance, certificate)
            }
            Answer::Undecided { from, to, .. } => Ok(check_budget(self.budget(), *from, *to)),
        }
    }
}

/// How the entries of a log from one number to another fail: they are not as many as the budget.
pub fn check_budget(budget: u64, from: u32, to: u32) -> Option<Failure>
    ensures { MatchOption result (to ≡ from + budget) (λ failure. (failure.reason ≡ Reason.WrongBudget) × (to ≢ from + budget) × (failure.place ≡ 0)) }
{
    if from <= to && u64::from(to - from) == budget {
        return None;
    }
    Some(Failure::of(Reason::WrongBudget, 0))
}
