ghost use Rattle.std.specs.Prelude.{◌≡◌, ◌++◌, IfOk, OnOk, is_ok};
ghost use Rattle.std.specs.List.{list_all};
ghost use Rattle.gp_clause.specs.Valuation.{Meets};
ghost use Rattle.gp_constraint.specs.Base.{base_of};
ghost use Rattle.gp_replay.specs.Feasible.{end_of};
ghost use Rattle.gp_window.specs.Ids.{contains_event};
ghost use Rattle.gp_bridge_rows.specs.Ends.{EndsAt, IsEnd, ends_at, executed_in, given_by, query_of};

use gp_base::Row;
use gp_clause::{Lit, Query, Valuation};
use gp_constraint::Encoded;
use gp_replay::{ReplayFault, replay};
use gp_report::{Answer, AnswerOf};
use gp_window::{EventId, Schedule, Window, contains_event};
use gp_witness::executed_of;
use std::alloc::{AllocError, Global};

/// The query whether these events are executed.
pub fn query_of(alloc: Global, encoded: &Encoded, ids: &[EventId]) -> Result<Query, AllocError>
    ensures { IfOk result (λ query. query ≡ query_of encoded.now ids.now) }
{
    let mut assumed = Row::new(alloc);
    for id in ids {
        assume_executed(&mut assumed, encoded, *id)?;
    }
    Ok(Query {
        locals: Row::new(alloc),
        assumed,
    })
}

fn assume_executed(assumed: &mut Row<Lit>, encoded: &Encoded, id: EventId) -> Result<(), AllocError>
    ensures { OnOk result (assumed.new ≡ assumed.old ++ executed_in encoded.now id) }
{
    let Some(variable) = encoded.executed(id) else {
        return Ok(());
    };
    assumed.push(Lit {
        variable,
        positive: true,
    })
}

/// The events that a valuation has executed, in order.
pub fn shown_by(
    alloc: Global,
    encoded: &Encoded,
    ids: &[EventId],
    valuation: &Valuation,
) -> Result<Schedule, AllocError>
    requires ask { IsEnd encoded.now ids.now }
    requires meets { Meets (base_of encoded.now) (query_of encoded.now ids.now) valuation.now }
    ensures { IfOk result (λ schedule. EndsAt encoded.now ids.now schedule.events) }
{
    let schedule = executed_of(alloc, encoded, valuation)?;
    Ok(schedule)
}

/// The answer that a kept schedule gives already.
pub fn given_by(
    alloc: Global,
    window: &Window,
    ids: &[EventId],
    kept: &Option<Schedule>,
) -> Result<Option<Answer>, AllocError>
    ensures { IfOk result (λ given. given ≡ given_by window.now ids.now kept.now) }
{
    match kept {
        None => Ok(None),
        Some(schedule) => found_by(alloc, window, ids, schedule),
    }
}

fn found_by(
    alloc: Global,
    window: &Window,
    ids: &[EventId],
    schedule: &Schedule,
) -> Result<Option<Answer>, AllocError>
    ensures { IfOk result (λ given. given ≡ given_by window.now ids.now (Some schedule.now)) }
{
    if !ends_at(alloc, window, ids, schedule)? {
        return Ok(None);
    }
    let copy = copied(alloc, schedule)?;
    Ok(Some(AnswerOf::Found(copy)))
}

fn ends_at(
    alloc: Global,
    window: &Window,
    ids: &[EventId],
    schedule: &Schedule,
) -> Result<bool, AllocError>
    ensures { IfOk result (λ ends. ends ≡ ends_at window.now ids.now schedule.now.events) }
{
    if !replays(alloc, window, schedule)? {
        return Ok(false);
    }
    Ok(has_all(schedule.events.as_slice(), ids))
}

fn replays(alloc: Global, window: &Window, schedule: &Schedule) -> Result<bool, AllocError>
    ensures { IfOk result (λ replays. replays ≡ is_ok (end_of window.now schedule.now.events)) }
{
    match replay(alloc, window, schedule) {
        Ok(_) => Ok(true),
        Err(ReplayFault::Stuck { .. }) => Ok(false),
        Err(ReplayFault::Memory) => Err(AllocError),
    }
}

fn has_all(schedule: &[EventId], ids: &[EventId]) -> bool
    ensures { result ≡ list_all (contains_event schedule.now) ids.now }
{
    ids.iter().all(|id| contains_event(schedule, *id))
}

fn copied(alloc: Global, schedule: &Schedule) -> Result<Schedule, AllocError>
    ensures { IfOk result (λ copy. copy ≡ schedule.now) }
{
    let events = Vec::from_slice(alloc, schedule.events.as_slice())?;
    Ok(Schedule {
        events: Row::from_vec(events),
    })
}
