// Whole runs of task link: which windows are linked, and that the schedules which link them replay from the recording's start.
use crate::fixture::{folder_of, run_in, run_on, written};
use crate::large::made_folder;
use gp_base::Row;
use gp_certificate::{Certificate, Step, check_certificate};
use gp_clause::Query;
use gp_constraint::base;
use gp_link::link_problem;
use gp_linked::{LinkAnswer, LinkReport};
use gp_outside::{Folder, FreeGate, MemoryFolder};
use gp_predict::Outcome;
use gp_replay::{State, StepFault, read_schedule};
use gp_report::{Answer, Report};
use gp_window::{EventId, Recording, Schedule, Window, cut, read_recording};
use std::alloc::Global;
use std::process::Abort;
use std::sync::Wait;
use std::thread::Threads;

/// Two windows, the second of which begins with 5 in x, which nobody wrote. The first thread keeps its lock over the mark.
const NOBODY_WROTE: [(&str, &str); 3] = [
    (
        "d/manifest",
        "gptrace 1\nthreads 2\nepochs 2\nroots 1 2\nvalue 2 x 5\n",
    ),
    ("d/t1.trace", "acquire l\nmark\nop a\nrelease l\n"),
    ("d/t2.trace", "mark\nacquire l\nread x 5\nop u\n"),
];

/// The recording of the folder `d`.
fn recording_in<R: Threads + Sync + Abort>(
    rt: &R,
    alloc: Global,
    folder: &mut MemoryFolder,
) -> Recording {
    read_recording(rt, alloc, folder, "d").expect(rt, "a recording")
}

/// Whether a certificate refutes the link of a window to the next.
fn refutes(
    rt: &impl Abort,
    alloc: Global,
    window: Window,
    next: &Window,
    certificate: &Certificate,
) -> bool {
    let encoded = base(alloc, window).expect(rt, "a base");
    let extended = link_problem(alloc, encoded, next).expect(rt, "a problem");
    let nothing = Query {
        locals: Row::new(alloc),
        assumed: Row::new(alloc),
    };
    let passes = check_certificate(alloc, extended.problem(), &[], &nothing, certificate);
    drop(nothing);
    drop(extended);
    passes.expect(rt, "memory") && ends_empty(certificate.steps.as_slice())
}

/// Whether a certificate refutes the link of the first window of a recording to the second.
fn refutes_first(
    rt: &impl Abort,
    alloc: Global,
    recording: &Recording,
    certificate: &Certificate,
) -> bool {
    if recording.manifest().epochs() < 2 {
        return false;
    }
    let window = cut(alloc, recording, 1).expect(rt, "memory");
    let next = cut(alloc, recording, 2).expect(rt, "memory");
    let refuted = refutes(rt, alloc, window, &next, certificate);
    drop(next);
    refuted
}

/// Whether the last step is the clause without literals.
fn ends_empty(steps: &[Step]) -> bool {
    match steps {
        [.., last] => last.clause.is_empty(),
        [] => false,
    }
}

/// The certificate of a report that has one answer.
fn only_certificate(report: &LinkReport) -> Option<&Certificate> {
    match report.links.as_slice() {
        [LinkAnswer::Unlinkable(certificate)] => Some(certificate),
        _ => None,
    }
}

/// The recording of two windows.
fn nobody_wrote_recording<R: AllocGlobal + Threads + Sync + Abort>(rt: &R) -> Recording {
    let mut folder = folder_of(rt, rt.alloc(), &NOBODY_WROTE);
    let recording = recording_in(rt, rt.alloc(), &mut folder);
    drop(folder);
    recording
}

/// Whether the one window of a report is unlinkable, by a certificate that checks again.
fn is_unlinkable<R: AllocGlobal + Threads + Sync + Abort>(rt: &R, report: &LinkReport) -> bool {
    let Some(certificate) = only_certificate(report) else {
        return false;
    };
    let recording = nobody_wrote_recording(rt);
    let refuted = refutes_first(rt, rt.alloc(), &recording, certificate);
    drop(recording);
    refuted
}

/// Whether the report of a run is of such a window.
fn has_no_link<R: AllocGlobal + Threads + Sync + Abort>(rt: &R, outcome: &Outcome) -> bool {
    match &outcome.links {
        Some(report) => is_unlinkable(rt, report),
        None => false,
    }
}

fn nobody_wrote<R: AllocGlobal + Threads + Wait + Sync + Abort>(rt: &R) -> bool {
    let (outcome, sink) = run_on(rt, &["--task=link", "d"], &NOBODY_WROTE);
    drop(sink);
    let unlinked = has_no_link(rt, &outcome);
    drop(outcome);
    unlinked
}

#[test]
fn a_value_that_nobody_wrote_is_no_link(rt: HostRuntime) {
    assert!(rt; nobody_wrote(&rt));
}

/// The schedule of window `k` in the text of task link, as a file that task replay reads.
fn schedule_file(rt: &impl Abort, alloc: Global, text: &[u8], k: u32) -> Vec<u8> {
    let head = format!(in alloc; "linked {k} ").expect(rt, "memory");
    let begun = format!(in alloc; "window {k}\n").expect(rt, "memory");
    let mut file = begun.into_bytes();
    put_list(rt, &mut file, text, head.as_bytes());
    file
}

/// Puts the list behind the line that begins so.
fn put_list(rt: &impl Abort, file: &mut Vec<u8>, text: &[u8], head: &[u8]) {
    let mut inside = false;
    for line in text.split(|byte| *byte == b'\n') {
        inside = is_inside(line, head, inside);
        if inside && is_list(line) {
            put_line(rt, file, line);
        }
    }
}

/// Whether a line belongs to what begins so: it does so itself, or is of the list behind it.
fn is_inside(line: &[u8], head: &[u8], inside: bool) -> bool {
    line.starts_with(head) || inside && is_list(line)
}

/// Whether a line is one of a list of events.
fn is_list(line: &[u8]) -> bool {
    line.first().is_some_and(|byte| byte.is_ascii_digit())
}

fn put_line(rt: &impl Abort, file: &mut Vec<u8>, line: &[u8]) {
    file.extend_from_slice(line).expect(rt, "memory");
    file.push(b'\n').expect(rt, "memory");
}

/// How many events a window has.
fn size_of(window: &Window) -> usize {
    let mut size = 0usize;
    for segment in window.segments() {
        size = size.wrapping_add(segment.len());
    }
    size
}

/// Whether task replay finds a schedule in the folder feasible, and it has all events of its window.
fn replays_whole<R: AllocGlobal + Threads + Wait + Sync + Abort>(
    rt: &R,
    folder: &mut MemoryFolder,
    file: &[u8],
    window: &Window,
) -> bool {
    let size = size_of(window);
    let due = format!(in rt.alloc(); "feasible {size}\n").expect(rt, "memory");
    folder.write("d/schedule", file).expect(rt, "a schedule");
    let (status, text) = written(rt, &["--task=replay", "d"], folder, &FreeGate);
    status == 0 && text.as_slice() == due.as_bytes()
}

/// Does an event, where it may happen.
fn does(rt: &impl Abort, state: &mut State, window: &Window, id: EventId) -> bool {
    if state.counts.len() != window.segments().len() {
        return false;
    }
    match state.step(window, id) {
        Ok(()) => true,
        Err(StepFault::Broken(_)) => false,
        Err(StepFault::Memory) => panic!(rt; "memory"),
    }
}

/// Lets nothing of a window be done in a state.
fn begin(rt: &impl Abort, alloc: Global, state: &mut State, window: &Window) {
    let counts = vec![in alloc; 0u32; window.segments().len()].expect(rt, "memory");
    state.counts = Row::from_vec(counts);
}

/// Does the events of a schedule, where each may happen in turn, from a state in which nothing of the window is done.
fn does_all(
    rt: &impl Abort,
    alloc: Global,
    state: &mut State,
    window: &Window,
    schedule: &Schedule,
) -> bool {
    begin(rt, alloc, state, window);
    let mut happen = true;
    for id in schedule.events.as_slice() {
        happen = happen && does(rt, state, window, *id);
    }
    happen
}

/// Does the events of a file with a schedule, from a state that an earlier window left.
fn does_file(
    rt: &impl Abort,
    alloc: Global,
    state: &mut State,
    window: &Window,
    file: &[u8],
) -> bool {
    if file.len() > 1_000_000 {
        return false;
    }
    let read = read_schedule(alloc, 4096, file).expect(rt, "a schedule");
    let done = read.window == window.number() && does_all(rt, alloc, state, window, &read.schedule);
    drop(read);
    done
}

/// Whether the schedule of window `k` in a text of links has all its events and replays, by itself and from this state on.
fn replays_from<R: AllocGlobal + Threads + Wait + Sync + Abort>(
    rt: &R,
    folder: &mut MemoryFolder,
    state: &mut State,
    window: &Window,
    text: &[u8],
) -> bool {
    let file = schedule_file(rt, rt.alloc(), text, window.number());
    replays_whole(rt, folder, file.as_slice(), window)
        && does_file(rt, rt.alloc(), state, window, file.as_slice())
}

/// Window `k` of a recording, where it has one.
fn window_at(rt: &impl Abort, alloc: Global, recording: &Recording, k: u32) -> Option<Window> {
    if k < 1 || recording.manifest().epochs() < k {
        return None;
    }
    Some(cut(alloc, recording, k).expect(rt, "memory"))
}

/// Whether the schedule of window `k` in a text of links replays from this state on.
fn window_replays<R: AllocGlobal + Threads + Wait + Sync + Abort>(
    rt: &R,
    folder: &mut MemoryFolder,
    state: &mut State,
    recording: &Recording,
    k: u32,
    text: &[u8],
) -> bool {
    let Some(window) = window_at(rt, rt.alloc(), recording, k) else {
        return false;
    };
    let replays = replays_from(rt, folder, state, &window, text);
    drop(window);
    replays
}

/// Whether those of all windows but the last do, one after another.
fn links_replay<R: AllocGlobal + Threads + Wait + Sync + Abort>(
    rt: &R,
    folder: &mut MemoryFolder,
    state: &mut State,
    recording: &Recording,
    text: &[u8],
) -> bool {
    let mut hold = true;
    for k in 1..recording.manifest().epochs() {
        hold = hold && window_replays(rt, folder, state, recording, k, text);
    }
    hold
}

/// Whether a schedule of the last window happens from a state that the window before left.
fn last_happens(
    rt: &impl Abort,
    alloc: Global,
    state: &mut State,
    recording: &Recording,
    found: &Schedule,
) -> bool {
    let Some(window) = window_at(rt, alloc, recording, recording.manifest().epochs()) else {
        return false;
    };
    let happens = does_all(rt, alloc, state, &window, found);
    drop(window);
    happens
}

/// The state in which a recording begins.
fn first_state(rt: &impl Abort, alloc: Global, recording: &Recording) -> Option<State> {
    let Some(window) = window_at(rt, alloc, recording, 1) else {
        return None;
    };
    let state = State::new(alloc, &window).expect(rt, "memory");
    drop(window);
    Some(state)
}

/// Whether the schedules in a text of links replay, each in its window and all of them from the recording's start, and then
/// one of the last window.
fn replay_from_start<R: AllocGlobal + Threads + Wait + Sync + Abort>(
    rt: &R,
    folder: &mut MemoryFolder,
    recording: &Recording,
    text: &[u8],
    found: &Schedule,
) -> bool {
    let Some(mut state) = first_state(rt, rt.alloc(), recording) else {
        return false;
    };
    let replay = links_replay(rt, folder, &mut state, recording, text)
        && last_happens(rt, rt.alloc(), &mut state, recording, found);
    drop(state);
    replay
}

/// The first schedule in the last window of a report that has one property.
fn last_found(report: &Report) -> Option<&Schedule> {
    let [.., window] = report.windows() else {
        return None;
    };
    let [property] = window.body.properties() else {
        return None;
    };
    property
        .body
        .entries()
        .iter()
        .find_map(|entry| match &entry.answer {
            Answer::Found(schedule) => Some(schedule),
            _ => None,
        })
}

/// Whether what a report found in the last window replays from the start, behind what a text of links tells.
fn found_behind<R: AllocGlobal + Threads + Wait + Sync + Abort>(
    rt: &R,
    folder: &mut MemoryFolder,
    text: &[u8],
    report: Option<&Report>,
) -> bool {
    let Some(found) = report.and_then(last_found) else {
        return false;
    };
    let recording = recording_in(rt, rt.alloc(), folder);
    let replay = replay_from_start(rt, folder, &recording, text, found);
    drop(recording);
    replay
}

/// Whether what an analysis finds in the last window does.
fn analysed_behind<R: AllocGlobal + Threads + Wait + Sync + Abort>(
    rt: &R,
    folder: &mut MemoryFolder,
    text: &[u8],
) -> bool {
    let (outcome, sink) = run_in(rt, &["--task=analyse", "d"], folder, &FreeGate);
    drop(sink);
    let replays = found_behind(rt, folder, text, outcome.report.as_ref());
    drop(outcome);
    replays
}

/// Whether all windows of a made recording of ten windows are linked, and what is found in the last one replays from its start
/// behind them.
fn found_replays<R: AllocGlobal + Threads + Wait + Sync + Abort>(rt: &R) -> bool {
    let mut folder = made_folder(rt, &["--task=make", "--seed=7", "--events=2000", "d"]);
    let (_status, text) = written(rt, &["--task=link", "d"], &mut folder, &FreeGate);
    let all = text.as_slice().ends_with(b"\nsummary 9 0 0 0\n");
    let replays = analysed_behind(rt, &mut folder, text.as_slice());
    drop(folder);
    all && replays
}

#[test]
fn what_is_found_replays_from_the_start(rt: HostRuntime) {
    assert!(rt; found_replays(&rt));
}
