ghost use Rattle.std.specs.Prelude.{◌≡◌, IfOk, length, map};
ghost use Rattle.gp_sharing.specs.Compacted.{answer_by, body_by, entries_by, entries_in_body, entry_by, own_steps, property_by, steps_in};
ghost use Rattle.gp_sharing.specs.Moving.{RoomFor, compacted_steps};
ghost use Rattle.gp_report.specs.Entries.{entries_among, entries_in};

use gp_base::Row;
use gp_certificate::Certificate;
use gp_report::{Answer, Entry, PropertyBody, PropertyRecord, WindowBody};
use gp_sharing::{SharedList, Sizes, compact_steps};
use std::alloc::{AllocError, Global};

// What is told of a window, with certificates over its whole new shared list.
pub(crate) fn rewrite_body(
    alloc: Global,
    sizes: Sizes,
    list: &SharedList,
    body: WindowBody,
) -> Result<WindowBody, AllocError>
    requires { RoomFor sizes list.now (steps_in (entries_in_body body)) }
    ensures { IfOk result (λ made. made ≡ body_by (compacted_steps sizes list.now) body) }
{
    match body {
        WindowBody::TooLarge { events, clauses } => Ok(WindowBody::TooLarge { events, clauses }),
        WindowBody::Answers(properties) => Ok(WindowBody::Answers(rewrite_properties(
            alloc, sizes, list, properties,
        )?)),
    }
}

fn rewrite_properties(
    alloc: Global,
    sizes: Sizes,
    list: &SharedList,
    properties: Row<PropertyRecord>,
) -> Result<Row<PropertyRecord>, AllocError>
    requires { RoomFor sizes list.now (steps_in (entries_among properties)) }
    ensures { IfOk result (λ made. made ≡ map (property_by (compacted_steps sizes list.now)) properties) }
{
    let mut made = Vec::new(alloc);
    for property in properties.into_vec() {
        made.push(rewrite_property(alloc, sizes, list, property)?)?;
    }
    Ok(Row::from_vec(made))
}

fn rewrite_property(
    alloc: Global,
    sizes: Sizes,
    list: &SharedList,
    property: PropertyRecord,
) -> Result<PropertyRecord, AllocError>
    requires { RoomFor sizes list.now (steps_in (entries_in property.body)) }
    ensures { IfOk result (λ made. made ≡ property_by (compacted_steps sizes list.now) property) }
{
    let PropertyRecord { name, body } = property;
    let body = rewrite_told(alloc, sizes, list, body)?;
    Ok(PropertyRecord { name, body })
}

fn rewrite_told(
    alloc: Global,
    sizes: Sizes,
    list: &SharedList,
    body: PropertyBody,
) -> Result<PropertyBody, AllocError>
    requires { RoomFor sizes list.now (steps_in (entries_in body)) }
    ensures { IfOk result (λ made. made ≡ entries_by (compacted_steps sizes list.now) body) }
{
    match body {
        PropertyBody::TooMany => Ok(PropertyBody::TooMany),
        PropertyBody::Entries(entries) => Ok(PropertyBody::Entries(rewrite_entries(
            alloc, sizes, list, entries,
        )?)),
    }
}

fn rewrite_entries(
    alloc: Global,
    sizes: Sizes,
    list: &SharedList,
    entries: Row<Entry>,
) -> Result<Row<Entry>, AllocError>
    requires { RoomFor sizes list.now (steps_in entries) }
    ensures { IfOk result (λ made. made ≡ map (entry_by (compacted_steps sizes list.now)) entries) }
{
    let mut made = Vec::new(alloc);
    for entry in entries.into_vec() {
        made.push(rewrite_entry(alloc, sizes, list, entry)?)?;
    }
    Ok(Row::from_vec(made))
}

fn rewrite_entry(
    alloc: Global,
    sizes: Sizes,
    list: &SharedList,
    entry: Entry,
) -> Result<Entry, AllocError>
    requires { RoomFor sizes list.now (length (own_steps entry.answer)) }
    ensures { IfOk result (λ made. made ≡ entry_by (compacted_steps sizes list.now) entry) }
{
    let Entry { events, answer } = entry;
    let answer = rewrite_answer(alloc, sizes, list, answer)?;
    Ok(Entry { events, answer })
}

fn rewrite_answer(
    alloc: Global,
    sizes: Sizes,
    list: &SharedList,
    answer: Answer,
) -> Result<Answer, AllocError>
    requires { RoomFor sizes list.now (length (own_steps answer)) }
    ensures { IfOk result (λ made. made ≡ answer_by (compacted_steps sizes list.now) answer) }
{
    match answer {
        Answer::Found(schedule) => Ok(Answer::Found(schedule)),
        Answer::Impossible(certificate) => {
            let steps = compact_steps(alloc, sizes, list, certificate.steps)?;
            Ok(Answer::Impossible(Certificate { steps }))
        }
        Answer::Undecided { worker, from, to } => Ok(Answer::Undecided { worker, from, to }),
    }
}
