ghost use Rattle.std.specs.Prelude.{◌≡◌, ◌++◌, ◌+◌, ◌<◌, ◌^◌, [], IfOk, OnOk, length};
ghost use Rattle.gp_instance.specs.Threads.{few_threads, is_crowded, is_given, set_part, thread_sets, threads_for, unless_crowded, with_thread, with_threads};

use gp_base::Row;
use gp_property::PatternAtom;
use gp_text::Name;
use gp_window::{EventId, is_among};
use std::alloc::{AllocError, Global};

/// The events of each atom, `None` where some of the thread variables have fewer threads in all than
/// they are.
pub fn unless_crowded(
    alloc: Global,
    atoms: &[PatternAtom],
    domains: Row<Row<EventId>>,
) -> Result<Option<Row<Row<EventId>>>, AllocError>
    requires { length domains ≡ length atoms.now }
    ensures { IfOk result (λ kept. kept ≡ unless_crowded atoms.now domains) }
{
    let sets = thread_sets(alloc, atoms, domains.as_slice())?;
    if is_crowded(alloc, sets.as_slice(), &[], 0)? {
        return Ok(None);
    }
    Ok(Some(domains))
}

/// The threads of each thread variable that has fewer than there are atoms. One that has more is
/// never among too few.
fn thread_sets(
    alloc: Global,
    atoms: &[PatternAtom],
    domains: &[Row<EventId>],
) -> Result<Row<Row<u32>>, AllocError>
    requires { length domains.now ≡ length atoms.now }
    ensures { IfOk result (λ sets. sets ≡ thread_sets (length atoms.now) [] atoms.now domains.now) }
{
    let mut before = Row::new(alloc);
    let mut sets = Row::new(alloc);
    for (place, atom) in atoms.iter().enumerate() {
        let ids = domains[place].as_slice();
        let variables = before.as_slice();
        let set = threads_for(alloc, atoms.len(), variables, &atom.thread_var, ids)?;
        add_set(&mut sets, set)?;
        before.push(atom.thread_var)?;
    }
    Ok(sets)
}

fn add_set(sets: &mut Row<Row<u32>>, set: Option<Row<u32>>) -> Result<(), AllocError>
    ensures { OnOk result (sets.new ≡ sets.old ++ set_part set) }
{
    match set {
        Some(set) => sets.push(set),
        None => Ok(()),
    }
}

/// The threads of a variable that did not come before, where they are fewer than the limit.
fn threads_for(
    alloc: Global,
    limit: usize,
    before: &[Name],
    variable: &Name,
    ids: &[EventId],
) -> Result<Option<Row<u32>>, AllocError>
    ensures { IfOk result (λ set. set ≡ threads_for limit before.now variable.now ids.now) }
{
    if is_given(before, variable) {
        return Ok(None);
    }
    few_threads(alloc, limit, ids)
}

fn is_given(before: &[Name], variable: &Name) -> bool
    ensures { result ≡ is_given before.now variable.now }
{
    before.iter().any(|other| other == variable)
}

/// The threads of these events, where they are fewer than the limit.
fn few_threads(alloc: Global, limit: usize, ids: &[EventId]) -> Result<Option<Row<u32>>, AllocError>
    ensures { IfOk result (λ set. set ≡ few_threads limit [] ids.now) }
{
    let mut threads = Row::new(alloc);
    for id in ids {
        add_thread(&mut threads, id.thread)?;
        if threads.len() >= limit {
            return Ok(None);
        }
    }
    Ok(Some(threads))
}

fn add_thread(threads: &mut Row<u32>, thread: u32) -> Result<(), AllocError>
    ensures { OnOk result (threads.new ≡ with_thread threads.old thread) }
{
    if is_among(threads.as_slice(), thread) {
        return Ok(());
    }
    threads.push(thread)
}

/// Whether some of these sets, and `count` more that have these threads, have fewer threads in all
/// than they are.
fn is_crowded(
    alloc: Global,
    sets: &[Row<u32>],
    threads: &[u32],
    count: usize,
) -> Result<bool, AllocError>
    requires { count + length sets.now < 2 ^ 63 }
    ensures { IfOk result (λ crowded. crowded ≡ is_crowded sets.now threads.now count) }
{
    let Some((set, rest)) = sets.split_first() else {
        return Ok(threads.len() < count);
    };
    if is_crowded(alloc, rest, threads, count)? {
        return Ok(true);
    }
    let more = with_threads(alloc, threads, set.as_slice())?;
    is_crowded(alloc, rest, more.as_slice(), count + 1)
}

fn with_threads(alloc: Global, threads: &[u32], more: &[u32]) -> Result<Row<u32>, AllocError>
    ensures { IfOk result (λ all. all ≡ with_threads threads.now more.now) }
{
    let mut all = Row::from_vec(Vec::from_slice(alloc, threads)?);
    for thread in more {
        add_thread(&mut all, *thread)?;
    }
    Ok(all)
}
