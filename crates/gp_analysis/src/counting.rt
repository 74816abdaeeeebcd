ghost use Rattle.std.specs.Prelude.{◌≡◌, ◌+◌, ◌*◌, ◌≤◌, IfOk, map, nat_lt, sum, sum_by};
ghost use Rattle.std.specs.List.{AllByRecursion};
ghost use Rattle.gp_analysis.specs.Question.{ListsAsks};
ghost use Rattle.gp_analysis.specs.Runs.{IsRun, PartAll, run_count};
ghost use Rattle.gp_analysis.specs.Tickets.{listed_count, subjects_count, subjects_tickets, tickets_in, tickets_listed, tickets_of, too_much, total_of, window_asked, window_count, window_listed};

use crate::left::Left;
use crate::question::{EncodeFault, Question};
use crate::runs::{Run, runs_of};
use gp_base::Row;
use gp_instance::{Instance, InstancesFault};
use gp_report::AnswerOf;
use gp_window::{Recording, Window, Windows};
use rayon::prelude::*;
use std::alloc::{AllocError, Global};
use std::thread::Threads;

// As many runs as keep so many processors busy. Each begins by a walk past all windows before it, so that more would cost more.
const COUNTED_RUNS: u32 = 16;

/// The most asks of a recording, times the budget of each.
const MOST_WORK: u64 = 1_000_000;

// Which asks are counted: all that are listed in windows that are not large, or those alone that have a ticket, since their
// window is not left out and they have no answer already.
#[derive(Clone, Copy)]
pub(crate) enum Counted {
    Listed,
    Asked,
}

/// How many asks have a ticket in all windows of a recording, where that times the budget of each is over 1,000,000, and `None`
/// where it is not. Whether a window is left out takes making its constraints, and is looked at only where all asks that are
/// listed would be too many; but of a window that is large nothing is listed. Runs of windows are counted side by side, and of
/// each run the lists of one window at a time are in memory.
pub fn too_much<R: Threads + Sync, Q: Question + Sync>(
    rt: &R,
    alloc: Global,
    recording: &Recording,
    question: &Q,
    budget: u64,
) -> Result<Option<u64>, AllocError>
where
    Q::Encoded: Send,
    Q::Shown: Send,
    ensures { IfOk result (λ found. found ≡ too_much (Q.form question.now) recording.now budget) }
{
    question.laws();
    let listed = total(rt, alloc, recording, question, Counted::Listed)?;
    if !is_too_much(listed, budget) {
        return Ok(None);
    }
    asked_too_much(rt, alloc, recording, question, budget)
}

// The same by the asks that have a ticket.
fn asked_too_much<R: Threads + Sync, Q: Question + Sync>(
    rt: &R,
    alloc: Global,
    recording: &Recording,
    question: &Q,
    budget: u64,
) -> Result<Option<u64>, AllocError>
where
    Q::Encoded: Send,
    Q::Shown: Send,
    ensures { IfOk result (λ found. found ≡ too_much (Q.form question.now) recording.now budget) }
{
    let asked = total(rt, alloc, recording, question, Counted::Asked)?;
    if is_too_much(asked, budget) {
        return Ok(Some(asked));
    }
    Ok(None)
}

fn is_too_much(total: u64, budget: u64) -> bool
    ensures { result ≡ nat_lt 1000000 (total * budget) }
{
    match total.checked_mul(budget) {
        Some(work) => work > MOST_WORK,
        None => true,
    }
}

// How many asks there are in all windows of a recording.
fn total<R: Threads + Sync, Q: Question + Sync>(
    rt: &R,
    alloc: Global,
    recording: &Recording,
    question: &Q,
    counted: Counted,
) -> Result<u64, AllocError>
where
    Q::Encoded: Send,
    Q::Shown: Send,
    ensures total { IfOk result (λ total. total ≡ total_of (Q.form question.now) counted recording.now) }
{
    let epochs = recording.manifest().epochs();
    let runs = runs_of(alloc, epochs, epochs.min(COUNTED_RUNS))?;
    let counts = run_counts(rt, alloc, recording, question, counted, runs)?;
    sum_of(counts.as_slice())
}

// How many asks there are in each of these runs, counted side by side.
fn run_counts<R: Threads + Sync, Q: Question + Sync>(
    rt: &R,
    alloc: Global,
    recording: &Recording,
    question: &Q,
    counted: Counted,
    runs: Vec<Run>,
) -> Result<Vec<u64>, AllocError>
where
    Q::Encoded: Send,
    Q::Shown: Send,
    requires { PartAll recording.now.manifest.epochs runs.items }
    ensures { IfOk result (λ counts. counts.items ≡ map (run_count (Q.form question.now) counted recording.now) runs.items) }
{
    runs.into_par_iter()
        .with_min_len(1)
        .map(
            |run: Run| -> Result<u64, AllocError>
                requires { IsRun recording.now.manifest.epochs run }
                ensures { IfOk result (λ count. count ≡ run_count (Q.form question.entry.now) counted recording.entry.now run) }
            { run_count(alloc, recording, question, counted, run) },
        )
        .collect::<Result<Vec<u64>, AllocError>>(rt, alloc)?
}

// How many asks there are in the windows of a run.
fn run_count<Q: Question>(
    alloc: Global,
    recording: &Recording,
    question: &Q,
    counted: Counted,
    run: Run,
) -> Result<u64, AllocError>
    requires { IsRun recording.now.manifest.epochs run }
    ensures { IfOk result (λ count. count ≡ run_count (Q.form question.now) counted recording.now run) }
{
    let mut windows = Windows::from(alloc, recording, run.first, run.count)?;
    let count = windows_count(alloc, &mut windows, question, counted);
    drop(windows);
    count
}

// How many asks there are in the windows that are still to come.
fn windows_count<Q: Question>(
    alloc: Global,
    windows: &mut Windows<'_>,
    question: &Q,
    counted: Counted,
) -> Result<u64, AllocError>
    ensures { IfOk result (λ count. count ≡ sum_by (window_count (Q.form question.now) counted) windows.old) }
{
    let mut count = 0;
    while let Some(window) = windows.next(alloc)? {
        count = added(count, window_count(alloc, window, question, counted)?)?;
    }
    Ok(count)
}

// How many asks there are in a window.
fn window_count<Q: Question>(
    alloc: Global,
    window: Window,
    question: &Q,
    counted: Counted,
) -> Result<u64, AllocError>
    ensures { IfOk result (λ count. count ≡ window_count (Q.form question.now) counted window) }
{
    match counted {
        Counted::Listed => {
            let count = window_listed(alloc, question, &window);
            drop(window);
            count
        }
        Counted::Asked => window_asked(alloc, window, question),
    }
}

// How many asks are counted as listed in a window: none where it is large, since it is left out in any case.
fn window_listed<Q: Question>(
    alloc: Global,
    question: &Q,
    window: &Window,
) -> Result<u64, AllocError>
    ensures { IfOk result (λ count. count ≡ window_listed (Q.form question.now) window.now) }
{
    if question.is_large(window) {
        return Ok(0);
    }
    subjects_count(alloc, question, window)
}

// How many asks are listed in a window.
fn subjects_count<Q: Question>(
    alloc: Global,
    question: &Q,
    window: &Window,
) -> Result<u64, AllocError>
    ensures { IfOk result (λ count. count ≡ subjects_count (Q.form question.now) window.now 0 (Q.form question.now).subjects) }
{
    question.laws();
    let mut count = 0;
    let mut left = question.subjects();
    let mut number = 0u32;
    while let Some((subject, more)) = left.split_first() {
        count = added(
            count,
            listed_count(alloc, question, window, subject, number)?,
        )?;
        left = more;
        number += 1;
    }
    Ok(count)
}

// How many asks of a subject are listed in a window: none where there are too many.
fn listed_count<Q: Question>(
    alloc: Global,
    question: &Q,
    window: &Window,
    subject: &Q::Subject,
    number: u32,
) -> Result<u64, AllocError>
    ensures { IfOk result (λ count. count ≡ listed_count ((Q.form question.now).asks window.now subject.now number)) }
{
    match question.asks(alloc, window, subject, number) {
        Ok(asks) => {
            let count = asks.len() as u64;
            drop(asks);
            Ok(count)
        }
        Err(InstancesFault::TooMany) => Ok(0),
        Err(InstancesFault::Memory) => Err(AllocError),
    }
}

// How many asks have a ticket in a window: none where it is left out.
fn window_asked<Q: Question>(alloc: Global, window: Window, question: &Q) -> Result<u64, AllocError>
    ensures { IfOk result (λ asked. asked ≡ window_asked (Q.form question.now) window) }
{
    match question.encode(alloc, window) {
        Ok(encoded) => subjects_tickets(alloc, question, &encoded),
        Err(EncodeFault::LeftOut(_)) => Ok(0),
        Err(EncodeFault::Memory) => Err(AllocError),
    }
}

// How many asks have a ticket in a window that is encoded.
fn subjects_tickets<Q: Question>(
    alloc: Global,
    question: &Q,
    encoded: &Q::Encoded,
) -> Result<u64, AllocError>
    ensures { IfOk result (λ count. count ≡ subjects_tickets (Q.form question.now) (Q.window_in encoded.now) 0 (Q.form question.now).subjects) }
{
    question.laws();
    let mut count = 0;
    let mut left = question.subjects();
    let mut number = 0u32;
    while let Some((subject, more)) = left.split_first() {
        count = added(
            count,
            tickets_listed(alloc, question, encoded, subject, number)?,
        )?;
        left = more;
        number += 1;
    }
    Ok(count)
}

// How many asks of a subject have a ticket: none where there are too many.
fn tickets_listed<Q: Question>(
    alloc: Global,
    question: &Q,
    encoded: &Q::Encoded,
    subject: &Q::Subject,
    number: u32,
) -> Result<u64, AllocError>
    requires { ListsAsks (Q.form question.now) (Q.lists question.now) subject.now }
    ensures { IfOk result (λ count. count ≡ tickets_listed (Q.form question.now) (Q.window_in encoded.now) subject.now ((Q.form question.now).asks (Q.window_in encoded.now) subject.now number)) }
{
    match question.asks(alloc, question.window_of(encoded), subject, number) {
        Ok(asks) => tickets_in(alloc, question, encoded, subject, asks),
        Err(InstancesFault::TooMany) => Ok(0),
        Err(InstancesFault::Memory) => Err(AllocError),
    }
}

// How many of these asks have a ticket.
fn tickets_in<Q: Question>(
    alloc: Global,
    question: &Q,
    encoded: &Q::Encoded,
    subject: &Q::Subject,
    asks: Row<Instance>,
) -> Result<u64, AllocError>
    requires { AllByRecursion (λ ask. Q.lists question.now (Q.window_in encoded.now) subject.now ask.events) asks }
    ensures { IfOk result (λ count. count ≡ tickets_in (Q.form question.now) (Q.window_in encoded.now) subject.now asks) }
{
    let mut count = 0;
    let mut left = Left::of(asks);
    while let Some(ask) = left.next() {
        let tickets = tickets_of(alloc, question, encoded, subject, &ask);
        drop(ask);
        count = added(count, tickets?)?;
    }
    Ok(count)
}

// One ticket, or none where an ask has an answer already.
fn tickets_of<Q: Question>(
    alloc: Global,
    question: &Q,
    encoded: &Q::Encoded,
    subject: &Q::Subject,
    ask: &Instance,
) -> Result<u64, AllocError>
    requires { Q.lists question.now (Q.window_in encoded.now) subject.now ask.now.events }
    ensures { IfOk result (λ count. count ≡ tickets_of ((Q.form question.now).given (Q.window_in encoded.now) subject.now ask.now.events)) }
{
    let given = question.given(alloc, encoded, subject, ask)?;
    let tickets = tickets_by(&given);
    drop(given);
    Ok(tickets)
}

// One ticket, or none where there is an answer already.
fn tickets_by<S>(given: &Option<AnswerOf<S>>) -> u64
    ensures { result ≡ tickets_of given.now }
{
    match given {
        None => 1,
        Some(_) => 0,
    }
}

fn sum_of(counts: &[u64]) -> Result<u64, AllocError>
    ensures { IfOk result (λ total. total ≡ sum counts.now) }
{
    let mut total = 0;
    for count in counts {
        total = added(total, *count)?;
    }
    Ok(total)
}

// More asks than 2^64 - 1 would not fit into memory.
fn added(total: u64, count: u64) -> Result<u64, AllocError>
    ensures { IfOk result (λ sum. sum ≡ total + count) }
{
    total.checked_add(count).ok_or(AllocError)
}
