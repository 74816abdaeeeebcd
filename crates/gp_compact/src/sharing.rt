ghost use Rattle.std.specs.Prelude.{◌≡◌, ◌+◌, ◌<◌, ◌^◌, IfOk, OnOk, length};
ghost use Rattle.gp_sharing.specs.Compacted.{entries_in_body, own_steps, steps_in, with_entries};
ghost use Rattle.gp_sharing.specs.Moving.{with_certificate};

use gp_base::Row;
use gp_certificate::Step;
use gp_report::{Answer, Entry, WindowBody};
use gp_sharing::{SharedList, Sizes};
use std::alloc::{AllocError, Global};

// A shared list with those steps of a window's certificates that move.
pub(crate) fn share(
    alloc: Global,
    sizes: Sizes,
    shared: Row<Step>,
    body: &WindowBody,
) -> Result<SharedList, AllocError>
    requires { sizes.clauses + length shared + steps_in (entries_in_body body.now) < 2 ^ 31 }
    ensures { IfOk result (λ list. list ≡ with_entries sizes shared (entries_in_body body.now)) }
{
    let mut list = SharedList::of(alloc, shared)?;
    for property in body.properties() {
        share_entries(alloc, sizes, &mut list, property.body.entries())?;
    }
    Ok(list)
}

fn share_entries(
    alloc: Global,
    sizes: Sizes,
    list: &mut SharedList,
    entries: &[Entry],
) -> Result<(), AllocError>
    requires { sizes.clauses + length list.old + steps_in entries.now < 2 ^ 31 }
    ensures { OnOk result (list.new ≡ with_entries sizes list.old entries.now) }
{
    for entry in entries {
        share_answer(alloc, sizes, list, &entry.answer)?;
    }
    Ok(())
}

fn share_answer(
    alloc: Global,
    sizes: Sizes,
    list: &mut SharedList,
    answer: &Answer,
) -> Result<(), AllocError>
    requires { sizes.clauses + length list.old + length (own_steps answer.now) < 2 ^ 31 }
    ensures { OnOk result (list.new ≡ with_certificate sizes list.old (own_steps answer.now)) }
{
    match answer {
        Answer::Impossible(certificate) => {
            list.share(alloc, sizes, certificate.steps.as_slice())
        }
        Answer::Found(_) => Ok(()),
        Answer::Undecided { .. } => Ok(()),
    }
}
