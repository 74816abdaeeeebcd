ghost use Rattle.std.specs.Prelude.{◌≡◌, ◌++◌, ◌∷◌, [], true, IfOk, OnOk};
ghost use Rattle.gp_constraint.specs.PointLaws.{IsEventOf};
ghost use Rattle.gp_stuck.specs.Cycle.{is_cycle};
ghost use Rattle.gp_stuck.specs.StuckQuery.{before_lits, executed_lit, stop_lits, stuck_query_of};

use gp_base::Row;
use gp_clause::{Lit, Query};
use gp_constraint::Encoded;
use gp_instance::Instance;
use gp_window::EventId;
use std::alloc::{AllocError, Global};

/// The query of a cycle of the window that is encoded: each of its threads has executed the event before
/// its own, where there is one, and not its own.
pub fn stuck_query(alloc: Global, encoded: &Encoded, cycle: &Instance) -> Result<Query, AllocError>
    requires { is_cycle encoded.now cycle.now.events ≡ true }
    ensures { IfOk result (λ query. query ≡ stuck_query_of encoded.now cycle.now.events) }
{
    let mut assumed = Row::new(alloc);
    for id in cycle.events.as_slice() {
        push_stop(&mut assumed, encoded, *id)?;
    }
    Ok(Query {
        locals: Row::new(alloc),
        assumed,
    })
}

/// Assumes that the thread of an event stops just before it.
fn push_stop(assumed: &mut Row<Lit>, encoded: &Encoded, id: EventId) -> Result<(), AllocError>
    requires { IsEventOf encoded.now id }
    ensures { OnOk result (assumed.new ≡ assumed.old ++ stop_lits encoded.now id) }
{
    push_before(assumed, encoded, id)?;
    push_executed(assumed, encoded, id, false)
}

/// Assumes that the event before this one is executed, where there is one.
fn push_before(assumed: &mut Row<Lit>, encoded: &Encoded, id: EventId) -> Result<(), AllocError>
    requires { IsEventOf encoded.now id }
    ensures { OnOk result (assumed.new ≡ assumed.old ++ before_lits encoded.now id.thread id.index) }
{
    let Some(index) = id.index.checked_sub(1) else {
        return Ok(());
    };
    let before = EventId {
        thread: id.thread,
        index,
    };
    push_executed(assumed, encoded, before, true)
}

/// Assumes that an event is executed, or that it is not.
fn push_executed(
    assumed: &mut Row<Lit>,
    encoded: &Encoded,
    id: EventId,
    positive: bool,
) -> Result<(), AllocError>
    requires { IsEventOf encoded.now id }
    ensures { OnOk result (assumed.new ≡ assumed.old ++ executed_lit encoded.now positive id ∷ []) }
{
    let Some(variable) = encoded.executed(id) else {
        return Ok(());
    };
    assumed.push(Lit { variable, positive })
}
