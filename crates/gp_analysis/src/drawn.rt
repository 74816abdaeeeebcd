ghost use Rattle.std.specs.Prelude.{◌≡◌, ◌<◌, ◌≤◌, ◌+◌, [], All, IfOk, OnOk, length};
ghost use Rattle.gp_window.specs.Ahead.{AreAhead};
ghost use Rattle.gp_window.specs.WindowForm.{window_of};
ghost use Rattle.gp_tickets.specs.Drawn.{numbers_of};
ghost use Rattle.gp_tickets.specs.Tickets.{IsSingle, IsUnused, hand_of};
ghost use Rattle.gp_analysis.specs.Drawn.{RecordsDrawn, RecordsOwn};
ghost use Rattle.gp_analysis.specs.Recorded.{CanBeAnalysed};
ghost use Rattle.gp_analysis.specs.Task.{IsOrder};
ghost use Rattle.gp_analysis.specs.Telling.{RecordsAs};

use crate::question::Question;
use crate::task::{Instructions, Order};
use crate::window::window_record;
use gp_outside::Gate;
use gp_report::WindowRecordOf;
use gp_tickets::{Drawer, Drawn, Made, Tickets};
use gp_window::{Recording, WindowsAhead};
use gp_workers::Post;
use std::alloc::{AllocError, Global};
use std::sync::Wait;
use std::thread::Threads;

// Draws windows until none is left, and records each. The workers of a window work in turn.
pub(crate) fn record_drawn<R: Threads + Wait + Sync, G: Gate + Sync, Q: Question>(
    rt: &R,
    alloc: Global,
    recording: &Recording,
    task: &Instructions<'_, Q, G>,
    tickets: &Tickets,
    mut drawer: Drawer,
) -> Result<Drawn<WindowRecordOf<Q::Shown>>, AllocError>
    requires can { CanBeAnalysed (Q.form task.now.question.now) recording.now task.now.workers task.now.budget }
    requires count { tickets.now.count ≡ recording.now.manifest.epochs }
    requires drawer { IsUnused tickets.now drawer }
    ensures { IfOk result (RecordsDrawn (Q.form task.now.question.now) task.now.telling tickets.now recording.now task.now.workers task.now.budget 1) }
{
    let made = recorded_as_drawn(rt, alloc, recording, task, tickets, &mut drawer)?;
    Ok(Drawn { made, drawer })
}

// What is recorded of the windows that a drawer draws, in the order in which it draws them.
fn recorded_as_drawn<R: Threads + Wait + Sync, G: Gate + Sync, Q: Question>(
    rt: &R,
    alloc: Global,
    recording: &Recording,
    task: &Instructions<'_, Q, G>,
    tickets: &Tickets,
    drawer: &mut Drawer,
) -> Result<Vec<Made<WindowRecordOf<Q::Shown>>>, AllocError>
    requires can { CanBeAnalysed (Q.form task.now.question.now) recording.now task.now.workers task.now.budget }
    requires count { tickets.now.count ≡ recording.now.manifest.epochs }
    requires drawer { IsUnused tickets.now drawer.old }
    ensures drawer { IfOk result (λ made. IsSingle tickets.now 1 drawer.new) }
    ensures numbers { IfOk result (λ made. numbers_of made.items ≡ (hand_of drawer.new).drawn) }
    ensures records { IfOk result (λ made. All (RecordsOwn (Q.form task.now.question.now) task.now.telling recording.now task.now.workers task.now.budget) made.items) }
{
    let mut ahead = WindowsAhead::new(alloc, recording)?;
    let made = recorded_ahead(rt, alloc, recording, task, tickets, drawer, &mut ahead);
    drop(ahead);
    made
}

// The same, of windows that are taken as they are drawn.
fn recorded_ahead<'a, R: Threads + Wait + Sync, G: Gate + Sync, Q: Question>(
    rt: &R,
    alloc: Global,
    recording: &'a Recording,
    task: &Instructions<'_, Q, G>,
    tickets: &Tickets,
    drawer: &mut Drawer,
    ahead: &mut WindowsAhead<'a>,
) -> Result<Vec<Made<WindowRecordOf<Q::Shown>>>, AllocError>
    requires can { CanBeAnalysed (Q.form task.now.question.now) recording.now task.now.workers task.now.budget }
    requires count { tickets.now.count ≡ recording.now.manifest.epochs }
    requires drawer { IsUnused tickets.now drawer.old }
    requires ahead { AreAhead recording.now ahead.old }
    ensures drawer { IfOk result (λ made. IsSingle tickets.now 1 drawer.new) }
    ensures numbers { IfOk result (λ made. numbers_of made.items ≡ (hand_of drawer.new).drawn) }
    ensures records { IfOk result (λ made. All (RecordsOwn (Q.form task.now.question.now) task.now.telling recording.now task.now.workers task.now.budget) made.items) }
{
    let mut made = Vec::new(alloc);
    match record_all(
        rt, alloc, recording, task, tickets, drawer, ahead, &mut made,
    ) {
        Ok(()) => Ok(made),
        Err(error) => {
            drop(made);
            Err(error)
        }
    }
}

// Records the windows that a drawer draws, in the order in which it draws them.
fn record_all<'a, R: Threads + Wait + Sync, G: Gate + Sync, Q: Question>(
    rt: &R,
    alloc: Global,
    recording: &'a Recording,
    task: &Instructions<'_, Q, G>,
    tickets: &Tickets,
    drawer: &mut Drawer,
    ahead: &mut WindowsAhead<'a>,
    made: &mut Vec<Made<WindowRecordOf<Q::Shown>>>,
) -> Result<(), AllocError>
    requires can { CanBeAnalysed (Q.form task.now.question.now) recording.now task.now.workers task.now.budget }
    requires count { tickets.now.count ≡ recording.now.manifest.epochs }
    requires drawer { IsUnused tickets.now drawer.old }
    requires ahead { AreAhead recording.now ahead.old }
    requires none { made.old.items ≡ [] }
    ensures drawer { OnOk result (IsSingle tickets.now 1 drawer.new) }
    ensures numbers { OnOk result (numbers_of made.new.items ≡ (hand_of drawer.new).drawn) }
    ensures records { OnOk result (All (RecordsOwn (Q.form task.now.question.now) task.now.telling recording.now task.now.workers task.now.budget) made.new.items) }
{
    let mut order = Order::InTurn(Post::none(alloc));
    while let Some(number) = tickets.draw(drawer) {
        let k = window_number(recording, number);
        let (value, next) = recorded_next(rt, alloc, recording, task, ahead, k, order)?;
        let Ok(()) = made.push(Made { number, value }) else {
            drop(next);
            return Err(AllocError);
        };
        order = next;
    }
    drop(order);
    Ok(())
}

// The number of the window of a ticket.
fn window_number(recording: &Recording, ticket: u64) -> u32
    requires { ticket < recording.now.manifest.epochs }
    ensures { result ≡ ticket + 1 }
{
    let epochs = recording.manifest().epochs();
    prove!(ticket < u64::from(epochs));
    ticket as u32 + 1
}

// What is recorded of window `k`, and the order for the next window.
fn recorded_next<'a, R: Threads + Wait + Sync, G: Gate + Sync, Q: Question>(
    rt: &R,
    alloc: Global,
    recording: &'a Recording,
    task: &Instructions<'_, Q, G>,
    ahead: &mut WindowsAhead<'a>,
    k: u32,
    order: Order,
) -> Result<(WindowRecordOf<Q::Shown>, Order), AllocError>
    requires can { CanBeAnalysed (Q.form task.now.question.now) recording.now task.now.workers task.now.budget }
    requires ahead { AreAhead recording.now ahead.old }
    requires k { (1 ≤ k) × (k ≤ recording.now.manifest.epochs) }
    requires order { IsOrder task.now.workers order }
    ensures ahead { IfOk result (λ made. AreAhead recording.now ahead.new) }
    ensures records { IfOk result (λ made. RecordsAs (Q.form task.now.question.now) task.now.telling task.now.workers task.now.budget (window_of recording.now k) made.0) }
    ensures order { IfOk result (λ made. IsOrder task.now.workers made.1) }
{
    let window = ahead.window(alloc, recording, k)?;
    window_record(rt, alloc, window, task, order)
}

// All that was drawn of a recording for this task. One drawer takes in the others.
pub(crate) fn gather<G, Q: Question>(
    recording: &Recording,
    task: &Instructions<'_, Q, G>,
    tickets: &Tickets,
    mut parts: Vec<Result<Drawn<WindowRecordOf<Q::Shown>>, AllocError>>,
) -> Result<Drawn<WindowRecordOf<Q::Shown>>, AllocError>
    requires some { 1 ≤ length parts.items }
    requires drawn { All (λ part. IfOk part (RecordsDrawn (Q.form task.now.question.now) task.now.telling tickets.now recording.now task.now.workers task.now.budget 1)) parts.items }
    ensures { IfOk result (RecordsDrawn (Q.form task.now.question.now) task.now.telling tickets.now recording.now task.now.workers task.now.budget (length parts.items)) }
{
    let Some(first) = parts.pop() else {
        unreachable!()
    };
    let mut all = first?;
    while let Some(part) = parts.pop() {
        all.take(tickets, part?)?;
    }
    Ok(all)
}
