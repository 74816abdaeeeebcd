ghost use Rattle.std.specs.Prelude.{◌≡◌, ◌++◌, ◌==◌, ◌&&◌, not, ℕ, List, [], IfOk, OnOk, Some, filter, find, flat_map, if◌then◌else◌};
ghost use Rattle.gp_clause.specs.Valuation.{truth_of};
ghost use Rattle.gp_window.specs.Ids.{contains_event};
ghost use Rattle.gp_constraint.specs.declared.symbol.Symbol.TheVariants.{Signal};
ghost use Rattle.gp_constraint.specs.Extension.{extension_of};
ghost use Rattle.gp_constraint.specs.Numbering.{number_of};
ghost use Rattle.gp_constraint.specs.Points.{points_of};
ghost use Rattle.gp_notify.specs.CallTables.{signals_of_condition};
ghost use Rattle.gp_notify.specs.Calls.{call_at, signals_for};
ghost use Rattle.gp_notify.specs.Pairs.{is_taken, pair_of, pair_with, pairs_of};
ghost use Rattle.gp_notify.specs.Signals.{signals_of, signals_to, wakes_of};

use crate::call::Call;
use crate::calling::call_at;
use crate::notify_problem::NotifyProblem;
use crate::pair::Pair;
use gp_base::Row;
use gp_clause::Valuation;
use gp_constraint::{Extension, Point, Symbol};
use gp_text::Name;
use gp_window::{EventId, Schedule, contains_event};
use std::alloc::{AllocError, Global};

impl NotifyProblem {
    /// For each wake of a schedule, in the order of thread and index, the first of its signals that an answer has it take;
    /// the answer is one to the problem with signals.
    pub fn pairs_of(
        &self,
        alloc: Global,
        schedule: &Schedule,
        valuation: &Valuation,
    ) -> Result<Row<Pair>, AllocError>
        ensures { IfOk result (λ pairs. pairs ≡ pairs_of self.now schedule.now.events valuation.now) }
    {
        match &self.extension {
            Some(extension) => {
                self.taken_pairs(alloc, extension, schedule.events.as_slice(), valuation)
            }
            None => Ok(Row::new(alloc)),
        }
    }

    fn taken_pairs(
        &self,
        alloc: Global,
        extension: &Extension,
        schedule: &[EventId],
        valuation: &Valuation,
    ) -> Result<Row<Pair>, AllocError>
        requires { extension.now ≡ extension_of self.now (signals_of self.now) }
        ensures { IfOk result (λ pairs. pairs ≡ pairs_of self.now schedule.now valuation.now) }
    {
        let mut pairs = Row::new(alloc);
        for w in self.wakes() {
            if contains_event(schedule, w.id) {
                self.put_pair(&mut pairs, extension, w, valuation)?;
            }
        }
        Ok(pairs)
    }

    fn put_pair(
        &self,
        pairs: &mut Row<Pair>,
        extension: &Extension,
        w: &Point,
        valuation: &Valuation,
    ) -> Result<(), AllocError>
        requires { extension.now ≡ extension_of self.now (signals_of self.now) }
        ensures { OnOk result (pairs.new ≡ pairs.old ++ pair_of self.now valuation.now w.now) }
    {
        match self.first_taken(extension, w, valuation) {
            Some(g) => pairs.push(Pair {
                wake: w.id,
                signal: g.id,
            }),
            None => Ok(()),
        }
    }

    /// The first signal of another thread that the answer has the wake take.
    fn first_taken(&self, extension: &Extension, w: &Point, valuation: &Valuation) -> Option<Point>
        requires { extension.now ≡ extension_of self.now (signals_of self.now) }
        ensures { result ≡ find (is_taken self.now valuation.now w.now) (signals_to self.now w.now) }
    {
        match call_at(self.window(), w.id) {
            Some(call) => first_taken(extension, w, self.signals_for(&call), valuation),
            None => None,
        }
    }

    /// The signals of the condition of a wake.
    fn signals_for(&self, call: &Call) -> &[Point]
        ensures { result.now ≡ filter (λ p. signals_for (Some call.now) (call_at self.now p.id)) (points_of self.now) }
    {
        match call {
            Call::Wake(condition) => self.signals_on(condition),
            _ => &[],
        }
    }

    fn signals_on(&self, condition: &Name) -> &[Point]
        ensures { result.now ≡ signals_of_condition self.now condition.now }
    {
        self.tables.signals.at(condition)
    }

    fn wakes(&self) -> &[Point]
        ensures { result.now ≡ wakes_of self.now }
    {
        self.tables.wakes.as_slice()
    }
}

fn first_taken(
    extension: &Extension,
    w: &Point,
    signals: &[Point],
    valuation: &Valuation,
) -> Option<Point>
    ensures { result ≡ find (λ g. not (g.id.thread == w.now.id.thread) && truth_of valuation.now (number_of extension.now.names (Signal w.now.number g.number))) signals.now }
{
    for g in signals {
        if takes(extension, w, g, valuation) {
            return Some(*g);
        }
    }
    None
}

/// Whether the answer has the wake take the signal, which is one of another thread.
fn takes(extension: &Extension, w: &Point, g: &Point, valuation: &Valuation) -> bool
    ensures { result ≡ (not (g.now.id.thread == w.now.id.thread) && truth_of valuation.now (number_of extension.now.names (Signal w.now.number g.now.number))) }
{
    g.id.thread != w.id.thread && is_taken(extension, w, g, valuation)
}

fn is_taken(extension: &Extension, w: &Point, g: &Point, valuation: &Valuation) -> bool
    ensures { result ≡ truth_of valuation.now (number_of extension.now.names (Signal w.now.number g.now.number)) }
{
    let variable = extension.number(Symbol::Signal(w.number, g.number));
    truth_of(valuation, variable as usize)
}

fn truth_of(valuation: &Valuation, variable: usize) -> bool
    ensures { result ≡ truth_of valuation.now variable }
{
    valuation
        .truth
        .as_slice()
        .get(variable)
        .copied()
        .unwrap_or(false)
}
