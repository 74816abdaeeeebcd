ghost use Rattle.std.specs.Prelude.{◌≡◌, ◌≢◌, ◌+◌, ◌≤◌, Err, IfOk, MatchOption, None, length};
ghost use Rattle.gp_clause.specs.Problem.{IsValidProblem};
ghost use Rattle.gp_constraint.specs.Base.{clauses_of};
ghost use Rattle.gp_constraint.specs.Encoded.{IsEncodable};
ghost use Rattle.gp_notify.specs.declared.fault.NotifyFault.TheVariants.{Unpaired};
ghost use Rattle.gp_notify.specs.CallTables.{AreCallTables};
ghost use Rattle.gp_notify.specs.Extended.{extended_of, new_size, old_size};
ghost use Rattle.gp_notify.specs.NotifyProblem.{IsKept, IsNotifyProblem, due_where, notify_due, paired_due};
ghost use Rattle.gp_notify.specs.Signals.{signals_of, unpaired};

use crate::call_tables::CallTables;
use crate::fault::NotifyFault;
use crate::signals::Signals;
use crate::wake_sleeps::unpaired;
use gp_clause::Problem;
use gp_constraint::{Encoded, Extension, extended_beside, extensions_mean};
use gp_window::{EventId, Window};
use std::alloc::Global;
use std::marker::Model;

/// A window with its problem, and with its problem with the family of signals behind it. In the window each wake has a sleep.
/// Contracts see the window, of which all the rest is made.
#[derive(Drop)]
pub struct NotifyProblem {
    pub(crate) encoded: Encoded,
    pub(crate) tables: CallTables,
    /// None where there is no wake; then no clause is added.
    pub(crate) extension: Option<Extension>,
}

impl Model for NotifyProblem {
    ghost use Rattle.gp_window.specs.WindowForm.{WindowForm};
    ghost use Rattle.gp_notify.specs.NotifyProblem.{IsNotifyProblem};

    ghost Value = { WindowForm };

    ghost view = { λ problem. problem.encoded };

    ghost invariant = { λ problem. IsNotifyProblem problem.encoded problem.tables.wakes problem.tables.notifies problem.tables.wakers problem.tables.signals problem.extension };
}

impl NotifyProblem {
    /// The window, which is not too large.
    pub fn window(&self) -> &Window
        ensures window { result.now ≡ self.now }
        ensures encodable { IsEncodable self.now }
    {
        self.encoded.window()
    }

    /// The window with its own problem, to which queries are made before they are lifted.
    pub fn encoded(&self) -> &Encoded
        ensures { result.now ≡ self.now }
    {
        &self.encoded
    }

    /// The problem with signals.
    pub fn problem(&self) -> &Problem
        ensures problem { result.now ≡ extended_of self.now }
        ensures valid { IsValidProblem result.now }
    {
        extensions_mean();
        match &self.extension {
            Some(extension) => extension.problem(),
            None => self.encoded.problem(),
        }
    }

    /// How many variables the window's own problem has.
    pub(crate) fn old_size(&self) -> usize
        ensures { result ≡ old_size self.now }
    {
        self.encoded.problem().kinds.len()
    }

    /// How many variables the signals add.
    pub(crate) fn new_size(&self) -> usize
        ensures { result ≡ new_size self.now }
    {
        self.problem().kinds.len() - self.old_size()
    }
}

/// The problem of a window with its signals. A window without calls of conditions costs no more than a walk over its events.
pub fn extend(alloc: Global, encoded: Encoded) -> Result<NotifyProblem, NotifyFault>
    ensures { result ≢ Err NotifyFault.Memory → result ≡ notify_due encoded }
{
    match parts_of(alloc, &encoded) {
        Ok(parts) => {
            let (tables, extension) = parts;
            Ok(NotifyProblem {
                encoded,
                tables,
                extension,
            })
        }
        Err(fault) => {
            drop(encoded);
            Err(fault)
        }
    }
}

/// The tables of a window each of whose wakes has a sleep, and the problem with signals.
fn parts_of(
    alloc: Global,
    encoded: &Encoded,
) -> Result<(CallTables, Option<Extension>), NotifyFault>
    ensures made { IfOk result (λ parts. IsNotifyProblem encoded.now parts.0.wakes parts.0.notifies parts.0.wakers parts.0.signals parts.1) }
    ensures fault { (fault : _) → result ≡ Err fault → fault ≢ NotifyFault.Memory → notify_due encoded.now ≡ Err fault }
{
    let tables = CallTables::of(alloc, encoded.window(), encoded.points())?;
    match paired_extension(alloc, encoded, &tables) {
        Ok(extension) => Ok((tables, extension)),
        Err(fault) => {
            drop(tables);
            Err(fault)
        }
    }
}

/// The problem with signals, of a window each of whose wakes has a sleep.
fn paired_extension(
    alloc: Global,
    encoded: &Encoded,
    tables: &CallTables,
) -> Result<Option<Extension>, NotifyFault>
    requires { AreCallTables encoded.now tables.now.wakes tables.now.notifies tables.now.wakers tables.now.signals }
    ensures paired { IfOk result (λ _. unpaired encoded.now ≡ None) }
    ensures kept { IfOk result (IsKept encoded.now) }
    ensures fits { IfOk result (λ _. length (clauses_of encoded.now) + length (signals_of encoded.now) ≤ 500000) }
    ensures fault { (fault : _) → result ≡ Err fault → fault ≢ NotifyFault.Memory → notify_due encoded.now ≡ Err fault }
{
    if let Some(wake) = unpaired_in(encoded, tables) {
        return Err(NotifyFault::Unpaired(wake));
    }
    extension_of(alloc, encoded, tables)
}

/// The event of the first wake without a sleep.
fn unpaired_in(encoded: &Encoded, tables: &CallTables) -> Option<EventId>
    requires { AreCallTables encoded.now tables.now.wakes tables.now.notifies tables.now.wakers tables.now.signals }
    ensures { MatchOption result (unpaired encoded.now ≡ None) (λ id. due_where encoded.now (unpaired encoded.now) ≡ Err (Unpaired id)) }
{
    let wake = unpaired(encoded.window(), encoded.points(), tables.wakes.as_slice())?;
    Some(wake.id)
}

/// The problem with signals, where there is a wake.
fn extension_of(
    alloc: Global,
    encoded: &Encoded,
    tables: &CallTables,
) -> Result<Option<Extension>, NotifyFault>
    requires { AreCallTables encoded.now tables.now.wakes tables.now.notifies tables.now.wakers tables.now.signals }
    ensures kept { IfOk result (IsKept encoded.now) }
    ensures fits { IfOk result (λ _. length (clauses_of encoded.now) + length (signals_of encoded.now) ≤ 500000) }
    ensures fault { (fault : _) → result ≡ Err fault → fault ≢ NotifyFault.Memory → paired_due encoded.now ≡ Err fault }
{
    let _ = encoded.window();
    if tables.wakes.is_empty() {
        return Ok(None);
    }
    let extension = extended_beside(alloc, encoded, &Signals { alloc })?;
    Ok(Some(extension))
}
