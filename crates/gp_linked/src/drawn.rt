ghost use Rattle.std.specs.Prelude.{◌≡◌, ◌<◌, ◌≤◌, ◌+◌, All, IfOk, length, suc};
ghost use Rattle.gp_tickets.specs.Drawn.{numbers_of};
ghost use Rattle.gp_tickets.specs.Tickets.{IsSingle, IsUnused, hand_of};
ghost use Rattle.gp_window.specs.Ahead.{AreAhead};
ghost use Rattle.gp_linked.specs.Answered.{AnswersFrom, AnswersNext};
ghost use Rattle.gp_linked.specs.Drawn.{AnswersDrawn, AnswersOwn};

use crate::answer::LinkAnswer;
use crate::window::link_window;
use gp_tickets::{Drawer, Drawn, Made, Tickets};
use gp_window::{Recording, WindowsAhead};
use std::alloc::{AllocError, Global};
use std::thread;
use std::thread::Threads;

// The answers of the first so many windows, in order: so many threads draw the windows side by side.
pub(crate) fn links_side_by_side<R: Threads + Sync>(
    rt: &R,
    alloc: Global,
    recording: &Recording,
    count: u32,
    workers: u32,
    budget: u64,
) -> Result<Vec<LinkAnswer>, AllocError>
    requires count { suc count ≡ recording.now.manifest.epochs }
    requires workers { (1 ≤ workers) × (workers ≤ 16) }
    requires budget { (1 ≤ budget) × (budget ≤ 1000000) }
    ensures count { IfOk result (λ links. length links.items ≡ count) }
    ensures answers { IfOk result (λ links. AnswersFrom recording.now budget 1 links.items) }
{
    let (tickets, drawers) = Tickets::new(alloc, u64::from(count), workers)?;
    let parts = linked_by_each(rt, alloc, recording, budget, &tickets, drawers)?;
    let links = gather(recording, budget, &tickets, parts)?.in_order(alloc)?;
    Ok(links)
}

// The answers of the windows that each of these drawers draws. One alone draws in the calling thread.
fn linked_by_each<R: Threads + Sync>(
    rt: &R,
    alloc: Global,
    recording: &Recording,
    budget: u64,
    tickets: &Tickets,
    drawers: Vec<Drawer>,
) -> Result<Vec<Result<Drawn<LinkAnswer>, AllocError>>, AllocError>
    requires count { suc tickets.now.count ≡ recording.now.manifest.epochs }
    requires budget { (1 ≤ budget) × (budget ≤ 1000000) }
    requires drawers { All (IsUnused tickets.now) drawers.items }
    ensures len { IfOk result (λ parts. length parts.items ≡ length drawers.items) }
    ensures drawn { IfOk result (λ parts. All (λ part. IfOk part (AnswersDrawn tickets.now recording.now budget 1)) parts.items) }
{
    thread::map_vec(
        rt,
        drawers,
        &|drawer: Drawer| -> Result<Drawn<LinkAnswer>, AllocError>
            requires { (suc tickets.now.count ≡ recording.now.manifest.epochs) × (1 ≤ budget) × (budget ≤ 1000000) × IsUnused tickets.now drawer }
            ensures { IfOk result (AnswersDrawn tickets.entry.now recording.entry.now budget 1) }
        { link_drawn(alloc, recording, budget, tickets, drawer) },
    )
}

// Draws windows until none is left, and answers each.
fn link_drawn(
    alloc: Global,
    recording: &Recording,
    budget: u64,
    tickets: &Tickets,
    mut drawer: Drawer,
) -> Result<Drawn<LinkAnswer>, AllocError>
    requires count { suc tickets.now.count ≡ recording.now.manifest.epochs }
    requires budget { (1 ≤ budget) × (budget ≤ 1000000) }
    requires drawer { IsUnused tickets.now drawer }
    ensures { IfOk result (AnswersDrawn tickets.now recording.now budget 1) }
{
    let made = linked_as_drawn(alloc, recording, budget, tickets, &mut drawer)?;
    Ok(Drawn { made, drawer })
}

// The answers of the windows that a drawer draws, in the order in which it draws them.
fn linked_as_drawn(
    alloc: Global,
    recording: &Recording,
    budget: u64,
    tickets: &Tickets,
    drawer: &mut Drawer,
) -> Result<Vec<Made<LinkAnswer>>, AllocError>
    requires count { suc tickets.now.count ≡ recording.now.manifest.epochs }
    requires budget { (1 ≤ budget) × (budget ≤ 1000000) }
    requires drawer { IsUnused tickets.now drawer.old }
    ensures drawer { IfOk result (λ made. IsSingle tickets.now 1 drawer.new) }
    ensures numbers { IfOk result (λ made. numbers_of made.items ≡ (hand_of drawer.new).drawn) }
    ensures answers { IfOk result (λ made. All (AnswersOwn recording.now budget) made.items) }
{
    let mut windows = WindowsAhead::new(alloc, recording)?;
    match WindowsAhead::new(alloc, recording) {
        Ok(mut nexts) => {
            let made = linked_ahead(
                alloc,
                recording,
                budget,
                tickets,
                drawer,
                &mut windows,
                &mut nexts,
            );
            drop(nexts);
            drop(windows);
            made
        }
        Err(error) => {
            drop(windows);
            Err(error)
        }
    }
}

// The same by two walks over the windows, one for the windows themselves and one for those that follow them.
fn linked_ahead<'a>(
    alloc: Global,
    recording: &'a Recording,
    budget: u64,
    tickets: &Tickets,
    drawer: &mut Drawer,
    windows: &mut WindowsAhead<'a>,
    nexts: &mut WindowsAhead<'a>,
) -> Result<Vec<Made<LinkAnswer>>, AllocError>
    requires count { suc tickets.now.count ≡ recording.now.manifest.epochs }
    requires budget { (1 ≤ budget) × (budget ≤ 1000000) }
    requires drawer { IsUnused tickets.now drawer.old }
    requires windows { AreAhead recording.now windows.old }
    requires nexts { AreAhead recording.now nexts.old }
    ensures drawer { IfOk result (λ made. IsSingle tickets.now 1 drawer.new) }
    ensures numbers { IfOk result (λ made. numbers_of made.items ≡ (hand_of drawer.new).drawn) }
    ensures answers { IfOk result (λ made. All (AnswersOwn recording.now budget) made.items) }
{
    let mut made = Vec::new(alloc);
    while let Some(number) = tickets.draw(drawer) {
        let k = window_number(recording, number);
        let value = link_next(alloc, recording, windows, nexts, k, budget)?;
        made.push(Made { number, value })?;
    }
    Ok(made)
}

// The number of the window of a ticket.
fn window_number(recording: &Recording, ticket: u64) -> u32
    requires { suc ticket < recording.now.manifest.epochs }
    ensures { result ≡ ticket + 1 }
{
    let epochs = recording.manifest().epochs();
    prove!(ticket < u64::from(epochs));
    ticket as u32 + 1
}

// The answer of window `k`. Both walks take windows in rising order.
fn link_next<'a>(
    alloc: Global,
    recording: &'a Recording,
    windows: &mut WindowsAhead<'a>,
    nexts: &mut WindowsAhead<'a>,
    k: u32,
    budget: u64,
) -> Result<LinkAnswer, AllocError>
    requires windows { AreAhead recording.now windows.old }
    requires nexts { AreAhead recording.now nexts.old }
    requires k { (1 ≤ k) × (k < recording.now.manifest.epochs) }
    requires budget { (1 ≤ budget) × (budget ≤ 1000000) }
    ensures windows { IfOk result (λ _. AreAhead recording.now windows.new) }
    ensures nexts { IfOk result (λ _. AreAhead recording.now nexts.new) }
    ensures answers { IfOk result (AnswersNext recording.now budget k) }
{
    let window = windows.window(alloc, recording, k)?;
    match nexts.window(alloc, recording, k + 1) {
        Ok(next) => {
            let answer = link_window(alloc, window, &next, budget);
            drop(next);
            answer
        }
        Err(error) => {
            drop(window);
            Err(error)
        }
    }
}

// All that was drawn of a recording. One drawer takes in the others.
fn gather(
    recording: &Recording,
    budget: u64,
    tickets: &Tickets,
    mut parts: Vec<Result<Drawn<LinkAnswer>, AllocError>>,
) -> Result<Drawn<LinkAnswer>, AllocError>
    requires some { 1 ≤ length parts.items }
    requires drawn { All (λ part. IfOk part (AnswersDrawn tickets.now recording.now budget 1)) parts.items }
    ensures { IfOk result (AnswersDrawn tickets.now recording.now budget (length parts.items)) }
{
    let Some(first) = parts.pop() else {
        unreachable!()
    };
    let mut all = first?;
    while let Some(part) = parts.pop() {
        all.take(tickets, part?)?;
    }
    Ok(all)
}
