ghost use Rattle.std.specs.Prelude.{◌<◌, ◌^◌, All, length};
ghost use Rattle.gp_report.specs.Records.{Entry};
ghost use Rattle.gp_report.specs.Entries.{entries_among, entries_in, properties_in};
ghost use Rattle.gp_report.specs.Telling.{AreClauses, HasClause, HasClauses};
ghost use Rattle.gp_report.specs.Typed.{IsTypedAnswer, IsTypedBody, IsTypedEntry, IsTypedId, IsTypedProperty, IsTypedStep, IsTypedWindow};

use crate::record::{Answer, Entry, PropertyRecord, WindowBody, WindowRecord};
use gp_certificate::Step;
use gp_window::EventId;

// Laws: the parts of these records are as their types say. Each is looked at once, since a type tells of what is looked at.
pub(crate) fn windows_fit(windows: &[WindowRecord])
    ensures typed { All IsTypedWindow windows.now }
    ensures clauses { AreClauses windows.now }
{
    for window in windows {
        window_fits(window);
    }
}

// A law: a window's record is as its type says, and so are the clauses in it.
fn window_fits(window: &WindowRecord)
    ensures typed { IsTypedWindow window.now }
    ensures shared { All HasClause window.now.shared }
    ensures answers { All (λ (entry : Entry). HasClauses entry.answer) (entries_among (properties_in window.now.body)) }
{
    let _number = window.number;
    steps_fit(window.shared.as_slice());
    body_fits(&window.body);
}

// A law: what is told of a window is as its type says.
fn body_fits(body: &WindowBody)
    ensures typed { IsTypedBody body.now }
    ensures answers { All (λ (entry : Entry). HasClauses entry.answer) (entries_among (properties_in body.now)) }
{
    match body {
        WindowBody::TooLarge { events, clauses } => {
            let _events = *events;
            let _clauses = *clauses;
        }
        WindowBody::Answers(properties) => properties_fit(properties.as_slice()),
    }
}

// A law: the records of properties are as their types say.
fn properties_fit(properties: &[PropertyRecord])
    ensures typed { All IsTypedProperty properties.now }
    ensures answers { All (λ (entry : Entry). HasClauses entry.answer) (entries_among properties.now) }
{
    for property in properties {
        property_fits(property);
    }
}

// A law: a property's record is as its type says, its name included.
fn property_fits(property: &PropertyRecord)
    ensures typed { IsTypedProperty property.now }
    ensures answers { All (λ (entry : Entry). HasClauses entry.answer) (entries_in property.now.body) }
{
    let _name = property.name.as_bytes();
    entries_fit(property.body.entries());
}

// A law: entries are as their types say.
fn entries_fit(entries: &[Entry])
    ensures typed { All IsTypedEntry entries.now }
    ensures answers { All (λ (entry : Entry). HasClauses entry.answer) entries.now }
{
    for entry in entries {
        entry_fits(entry);
    }
}

// A law: an entry is as its type says.
fn entry_fits(entry: &Entry)
    ensures typed { IsTypedEntry entry.now }
    ensures answers { HasClauses entry.now.answer }
{
    ids_fit(entry.events.as_slice());
    answer_fits(&entry.answer);
}

// A law: an answer is as its type says.
fn answer_fits(answer: &Answer)
    ensures typed { IsTypedAnswer answer.now }
    ensures clauses { HasClauses answer.now }
{
    match answer {
        Answer::Found(schedule) => ids_fit(schedule.events.as_slice()),
        Answer::Impossible(certificate) => steps_fit(certificate.steps.as_slice()),
        Answer::Undecided { from, to, .. } => {
            let _from = *from;
            let _to = *to;
        }
    }
}

// A law: steps are as their types say, and their variables rise.
fn steps_fit(steps: &[Step])
    ensures length { length steps.now < 2 ^ 64 }
    ensures typed { All IsTypedStep steps.now }
    ensures clauses { All HasClause steps.now }
{
    let _count = steps.len();
    for step in steps {
        step_fits(step);
    }
}

// A law: a step is as its type says, and its variables rise.
fn step_fits(step: &Step)
    ensures typed { IsTypedStep step.now }
    ensures clause { HasClause step.now }
{
    let _lits = step.clause.lits();
    let _lits_len = step.clause.len();
    let _hints_len = step.hints.len();
    hints_fit(step.hints.as_slice());
}

// A law: hints are below 2^32.
fn hints_fit(hints: &[u32])
    ensures { All (λ hint. hint < 2 ^ 32) hints.now }
{
    for hint in hints {
        let _number = *hint;
    }
}

// A law: ids are as their types say.
fn ids_fit(ids: &[EventId])
    ensures length { length ids.now < 2 ^ 64 }
    ensures typed { All IsTypedId ids.now }
{
    let _count = ids.len();
    for id in ids {
        id_fits(id);
    }
}

// A law: an id has two numbers below 2^32.
fn id_fits(id: &EventId)
    ensures { IsTypedId id.now }
{
    let _thread = id.thread;
    let _index = id.index;
}
