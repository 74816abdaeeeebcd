ghost use Rattle.std.specs.Prelude.{◌≡◌, IfOk, List, None, option_map};
ghost use Rattle.gp_window.specs.declared.schedule.EventId.{EventId};
ghost use Rattle.gp_resume.specs.Old.{answer_in};
ghost use Rattle.gp_resume.specs.Table.{answer_at};

use gp_base::Table;
use gp_report::{Answer, Entry};
use gp_window::EventId;
use std::alloc::{AllocError, Global};
use std::marker::Model;

// Answers, found by the events of their instances.
#[derive(Drop)]
pub(crate) struct Answers<'a> {
    table: Table<Vec<EventId>, &'a Answer>,
}

impl<'a> Model for Answers<'a> {
    ghost use Rattle.std.specs.Prelude.{List};
    ghost use Rattle.gp_report.specs.Records.{Answer};
    ghost use Rattle.gp_window.specs.declared.schedule.EventId.{EventId};
    ghost use Rattle.gp_resume.specs.Table.{told_in};

    ghost Value = { List (List EventId × Answer) };

    ghost view = { λ answers. told_in answers.table };
}

impl<'a> Answers<'a> {
    // The answers of these entries, of several with the same events that of the first.
    pub(crate) fn first_of(alloc: Global, entries: &'a [Entry]) -> Result<Answers<'a>, AllocError>
        ensures { IfOk result (λ answers. (ids : List EventId) → answer_at answers ids ≡ answer_in entries.now ids) }
    {
        let mut table = Table::new(alloc);
        let mut left = entries;
        while let Some((entry, front)) = left.split_last() {
            let key = Vec::from_slice(alloc, entry.events.as_slice())?;
            table.put(key, &entry.answer)?;
            left = front;
        }
        Ok(Answers { table })
    }

    pub(crate) fn get(
        &self,
        alloc: Global,
        ids: &[EventId],
    ) -> Result<Option<&'a Answer>, AllocError>
        ensures { IfOk result (λ found. option_map (λ answer. answer.now) found ≡ answer_at self.now ids.now) }
    {
        let key = Vec::from_slice(alloc, ids)?;
        Ok(self.table.get(&key).copied())
    }

    // The answers without that to the instance with these events.
    pub(crate) fn without(self, alloc: Global, ids: &[EventId]) -> Result<Answers<'a>, AllocError>
        ensures here { IfOk result (λ left. answer_at left ids.now ≡ None) }
        ensures others { IfOk result (λ left. (other : List EventId) → (ids.now ≡ other → ⊥) → answer_at left other ≡ answer_at self.entry other) }
    {
        let key = Vec::from_slice(alloc, ids)?;
        let Answers { mut table } = self;
        table.remove(&key);
        Ok(Answers { table })
    }
}
