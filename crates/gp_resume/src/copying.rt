ghost use Rattle.std.specs.Prelude.{◌≡◌, IfOk};

use gp_base::Row;
use gp_certificate::{Certificate, Step};
use gp_report::Answer;
use gp_window::{EventId, Schedule};
use std::alloc::{AllocError, Global};

pub(crate) fn copy_answer(alloc: Global, answer: &Answer) -> Result<Answer, AllocError>
    ensures { IfOk result (λ copy. copy ≡ answer.now) }
{
    match answer {
        Answer::Found(schedule) => Ok(Answer::Found(copy_schedule(alloc, schedule)?)),
        Answer::Impossible(certificate) => {
            let steps = copy_steps(alloc, certificate.steps.as_slice())?;
            Ok(Answer::Impossible(Certificate { steps }))
        }
        Answer::Undecided { worker, from, to } => Ok(Answer::Undecided {
            worker: *worker,
            from: *from,
            to: *to,
        }),
    }
}

fn copy_schedule(alloc: Global, schedule: &Schedule) -> Result<Schedule, AllocError>
    ensures { IfOk result (λ copy. copy ≡ schedule.now) }
{
    let events: Vec<EventId> = Vec::from_slice(alloc, schedule.events.as_slice())?;
    Ok(Schedule {
        events: Row::from_vec(events),
    })
}

pub(crate) fn copy_steps(alloc: Global, steps: &[Step]) -> Result<Row<Step>, AllocError>
    ensures { IfOk result (λ copy. copy ≡ steps.now) }
{
    let mut copy = Vec::new(alloc);
    for step in steps {
        copy.push(copy_step(alloc, step)?)?;
    }
    Ok(Row::from_vec(copy))
}

fn copy_step(alloc: Global, step: &Step) -> Result<Step, AllocError>
    ensures { IfOk result (λ copy. copy ≡ step.now) }
{
    let hints: Vec<u32> = Vec::from_slice(alloc, step.hints.as_slice())?;
    Ok(Step {
        clause: step.clause.clone()?,
        hints: Row::from_vec(hints),
    })
}
