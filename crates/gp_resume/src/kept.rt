ghost use Rattle.std.specs.Prelude.{◌≡◌, IfOk, List, option_map};
ghost use Rattle.gp_resume.specs.KeptForm.{answer_to};

use crate::answers::Answers;
use crate::copying::{copy_answer, copy_steps};
use gp_base::Row;
use gp_certificate::Step;
use gp_report::Answer;
use gp_window::EventId;
use std::alloc::{AllocError, Global};
use std::marker::Model;

/// What of an old report is kept of a window. It refers to the old report.
#[derive(Drop)]
pub struct Kept<'a> {
    shared: &'a [Step],
    answers: Row<Answers<'a>>,
}

impl<'a> Model for Kept<'a> {
    ghost use Rattle.gp_resume.specs.KeptForm.{KeptForm};

    ghost Value = { KeptForm };

    ghost view = { λ kept. record { shared = kept.shared.now; answers = kept.answers } };
}

impl<'a> Kept<'a> {
    pub(crate) fn new(shared: &'a [Step], answers: Row<Answers<'a>>) -> Kept<'a>
        ensures { result ≡ record { shared = shared.now; answers = answers.entry } }
    {
        Kept { shared, answers }
    }

    /// A copy of the shared list that is kept.
    pub fn shared(&self, alloc: Global) -> Result<Row<Step>, AllocError>
        ensures { IfOk result (λ steps. steps ≡ self.now.shared) }
    {
        copy_steps(alloc, self.shared)
    }

    /// A copy of the answer that is kept to the instance with these events of the property of this number.
    pub fn answer(
        &self,
        alloc: Global,
        number: u32,
        events: &[EventId],
    ) -> Result<Option<Answer>, AllocError>
        ensures { IfOk result (λ answer. answer ≡ answer_to self.now number events.now) }
    {
        let Some(answers) = self.answers.as_slice().get(number as usize) else {
            return Ok(None);
        };
        match answers.get(alloc, events)? {
            Some(answer) => Ok(Some(copy_answer(alloc, answer)?)),
            None => Ok(None),
        }
    }
}
