// Which threads can come to their end, worked out by hand.
ghost use Rattle.std.specs.Prelude.{◌≤◌};

use crate::ends::Ends;
use crate::recorded::recording_of;
use gp_analysis::{analyse, too_much};
use gp_base::Row;
use gp_outside::FreeGate;
use gp_replay::{ReplayFault, replay};
use gp_report::{
    Answer, AnswerOf, Entry, PropertyBodyOf, PropertyRecord, WindowBodyOf, WindowRecord,
};
use gp_text::Name;
use gp_window::{EventId, Recording, Schedule, Window, contains_event, cut};
use std::alloc::Global;
use std::process::Abort;
use std::sync::Wait;
use std::thread::Threads;

// Enough for each ask of these rows.
const BUDGET: u64 = 1000;

type Ids<'a> = &'a [(u32, u32)];

// What is due of an end: a schedule that reaches it, just the one that was kept, or a certificate.
#[derive(Drop, Clone, Copy)]
enum Due<'a> {
    Reached,
    Given(Ids<'a>),
    Impossible,
}

// The end of a thread, and what is due of it.
type End<'a> = (u32, u32, Due<'a>);

// The files of a recording, the schedule that is kept, where one is, what is due of each window, and how many asks have a
// ticket in all of them.
#[derive(Drop, Clone, Copy)]
struct Case<'a> {
    name: &'a str,
    files: &'a [(&'a str, &'a str)],
    kept: Ids<'a>,
    due: &'a [&'a [End<'a>]],
    tickets: usize,
}

fn schedule_of(rt: &impl Abort, alloc: Global, ids: Ids) -> Schedule {
    let mut events = Row::new(alloc);
    for (thread, index) in ids {
        let id = EventId {
            thread: *thread,
            index: *index,
        };
        events.push(id).expect(rt, "memory");
    }
    Schedule { events }
}

fn question_of(rt: &impl Abort, alloc: Global, kept: Ids) -> Ends {
    let name = Name::of(b"ends").expect(rt, "a name");
    let question = Ends::named(name);
    if kept.is_empty() {
        return question;
    }
    question.with(schedule_of(rt, alloc, kept))
}

fn is_event(id: EventId, thread: u32, index: u32) -> bool {
    id.thread == thread && id.index == index
}

fn zip_events(ids: &[EventId], due: Ids) -> bool {
    ids.iter()
        .zip(due)
        .all(|(id, (thread, index))| is_event(*id, *thread, *index))
}

fn are_events(ids: &[EventId], due: Ids) -> bool {
    ids.len() == due.len() && zip_events(ids, due)
}

// Whether the schedule replays to its end, and has the event.
fn reaches(
    rt: &impl Abort,
    alloc: Global,
    window: &Window,
    schedule: &Schedule,
    id: EventId,
) -> bool {
    match replay(alloc, window, schedule) {
        Ok(end) => {
            drop(end);
            contains_event(schedule.events.as_slice(), id)
        }
        Err(ReplayFault::Stuck { .. }) => false,
        Err(ReplayFault::Memory) => panic!(rt; "memory"),
    }
}

fn is_found(
    rt: &impl Abort,
    alloc: Global,
    window: &Window,
    schedule: &Schedule,
    id: EventId,
    due: Due,
) -> bool {
    match due {
        Due::Reached => reaches(rt, alloc, window, schedule, id),
        Due::Given(kept) => are_events(schedule.events.as_slice(), kept),
        Due::Impossible => false,
    }
}

fn is_answer(
    rt: &impl Abort,
    alloc: Global,
    window: &Window,
    answer: &Answer,
    id: EventId,
    due: Due,
) -> bool {
    match answer {
        AnswerOf::Found(schedule) => is_found(rt, alloc, window, schedule, id, due),
        AnswerOf::Impossible(_) => matches!(due, Due::Impossible),
        AnswerOf::Undecided { .. } => false,
    }
}

fn is_entry(rt: &impl Abort, alloc: Global, window: &Window, entry: &Entry, end: End) -> bool {
    let (thread, index, due) = end;
    let id = EventId { thread, index };
    if !are_events(entry.events.as_slice(), &[(thread, index)]) {
        return false;
    }
    is_answer(rt, alloc, window, &entry.answer, id, due)
}

fn are_entries(
    rt: &impl Abort,
    alloc: Global,
    window: &Window,
    entries: &[Entry],
    ends: &[End],
) -> bool {
    if entries.len() != ends.len() {
        return false;
    }
    for (entry, end) in entries.iter().zip(ends) {
        if !is_entry(rt, alloc, window, entry, *end) {
            return false;
        }
    }
    true
}

// The one subject of a window that was answered.
fn subject_of(record: &WindowRecord) -> Option<&PropertyRecord> {
    let WindowBodyOf::Answers(subjects) = &record.body else {
        return None;
    };
    match subjects.as_slice() {
        [subject] => Some(subject),
        _ => None,
    }
}

fn entries_of(subject: &PropertyRecord) -> Option<&[Entry]> {
    match &subject.body {
        PropertyBodyOf::TooMany => None,
        PropertyBodyOf::Entries(entries) => Some(entries.as_slice()),
    }
}

fn window_of(rt: &impl Abort, alloc: Global, recording: &Recording, number: u32) -> Option<Window> {
    if number == 0 || number > recording.manifest().epochs() {
        return None;
    }
    Some(cut(alloc, recording, number).expect(rt, "memory"))
}

fn is_window(
    rt: &impl Abort,
    alloc: Global,
    recording: &Recording,
    record: &WindowRecord,
    ends: &[End],
) -> bool {
    let Some(entries) = subject_of(record).and_then(entries_of) else {
        return false;
    };
    let Some(window) = window_of(rt, alloc, recording, record.number) else {
        return false;
    };
    let due = are_entries(rt, alloc, &window, entries, ends);
    drop(window);
    due
}

fn are_windows(
    rt: &impl Abort,
    alloc: Global,
    recording: &Recording,
    records: &[WindowRecord],
    due: &[&[End]],
) -> bool {
    if records.len() != due.len() {
        return false;
    }
    for (record, ends) in records.iter().zip(due) {
        if !is_window(rt, alloc, recording, record, ends) {
            return false;
        }
    }
    true
}

// How many turns the workers of a window had, each with a ticket of its own.
fn turns_in(record: &WindowRecord) -> usize {
    let mut turns: usize = 0;
    for worker in record.records.as_slice() {
        turns = turns.saturating_add(worker.turns.len());
    }
    turns
}

fn turns_of(records: &[WindowRecord]) -> usize {
    let mut turns: usize = 0;
    for record in records {
        turns = turns.saturating_add(turns_in(record));
    }
    turns
}

fn records_of<R: AllocGlobal + Threads + Wait + Sync + Abort>(
    rt: &R,
    recording: &Recording,
    question: &Ends,
    workers: u32,
) -> Row<WindowRecord>
    requires { (1 ≤ workers) × (workers ≤ 16) }
{
    let alloc = rt.alloc();
    match too_much(rt, alloc, recording, question, BUDGET).expect(rt, "memory") {
        Some(_) => panic!(rt; "there are too many asks"),
        None => {
            analyse(rt, alloc, recording, question, workers, BUDGET, &FreeGate).expect(rt, "memory")
        }
    }
}

// Whether so many workers answer what is due, in a turn for each ask that has a ticket.
fn holds<R: AllocGlobal + Threads + Wait + Sync + Abort>(rt: &R, case: &Case, workers: u32) -> bool
    requires { (1 ≤ workers) × (workers ≤ 16) }
{
    let recording = recording_of(rt, case.files);
    let question = question_of(rt, rt.alloc(), case.kept);
    let records = records_of(rt, &recording, &question, workers);
    let due = are_windows(rt, rt.alloc(), &recording, records.as_slice(), case.due);
    let turns = turns_of(records.as_slice());
    drop(records);
    drop(question);
    drop(recording);
    due && turns == case.tickets
}

const TWO: (&str, &str) = ("manifest", "gptrace 1\nthreads 2\nepochs 1\nroots 1 2\n");

const ONE_STARTED: (&str, &str) = ("manifest", "gptrace 1\nthreads 2\nepochs 1\nroots 1\n");

const TWO_WINDOWS: (&str, &str) = ("manifest", "gptrace 1\nthreads 2\nepochs 2\nroots 1 2\n");

const THREE: (&str, &str) = ("manifest", "gptrace 1\nthreads 3\nepochs 1\nroots 1 2 3\n");

// The first thread ends with its second event; the second reads what nobody writes; the third reads what the first wrote.
const THREE_ENDS: [(&str, &str); 4] = [
    THREE,
    ("t1.trace", "write x 1\nwrite y 1\n"),
    ("t2.trace", "read x 7\n"),
    ("t3.trace", "read x 1\n"),
];

const CASES: [Case; 5] = [
    // No event writes 7, so the first thread stays before its second event; nothing keeps the second thread.
    Case {
        name: "a value that nobody writes",
        files: &[
            TWO,
            ("t1.trace", "write y 2\nread x 7\n"),
            ("t2.trace", "write x 1\n"),
        ],
        kept: &[],
        due: &[&[(1, 1, Due::Impossible), (2, 0, Due::Reached)]],
        tickets: 2,
    },
    // Each read waits for the write behind the other.
    Case {
        name: "reads that wait for each other",
        files: &[
            TWO,
            ("t1.trace", "read x 1\nwrite y 1\n"),
            ("t2.trace", "read y 1\nwrite x 1\n"),
        ],
        kept: &[],
        due: &[&[(1, 1, Due::Impossible), (2, 1, Due::Impossible)]],
        tickets: 2,
    },
    // In the first window the second thread has no events, and no end. The first takes the lock there and never gives it back,
    // so that the second stays before it in the second window.
    Case {
        name: "a lock that is held over a window",
        files: &[
            TWO_WINDOWS,
            ("t1.trace", "acquire l\nmark\nwrite x 1\n"),
            ("t2.trace", "mark\nwrite y 1\nacquire l\nrelease l\n"),
        ],
        kept: &[],
        due: &[
            &[(1, 0, Due::Reached)],
            &[(1, 0, Due::Reached), (2, 2, Due::Impossible)],
        ],
        tickets: 3,
    },
    // Whoever comes first takes the lock: each can be the one, though not both.
    Case {
        name: "a lock that one of two takes",
        files: &[
            TWO,
            ("t1.trace", "acquire l\n"),
            ("t2.trace", "acquire l\n"),
        ],
        kept: &[],
        due: &[&[(1, 0, Due::Reached), (2, 0, Due::Reached)]],
        tickets: 2,
    },
    // Nobody starts the second thread.
    Case {
        name: "a thread that is not started",
        files: &[
            ONE_STARTED,
            ("t1.trace", "write x 1\n"),
            ("t2.trace", "write x 2\n"),
        ],
        kept: &[],
        due: &[&[(1, 0, Due::Reached), (2, 0, Due::Impossible)]],
        tickets: 2,
    },
];

// With a schedule that is kept.
const KEPT: [Case; 3] = [
    // It brings the first thread to its end, and no other.
    Case {
        name: "a schedule that is kept",
        files: &THREE_ENDS,
        kept: &[(1, 0), (1, 1)],
        due: &[&[
            (1, 1, Due::Given(&[(1, 0), (1, 1)])),
            (2, 0, Due::Impossible),
            (3, 0, Due::Reached),
        ]],
        tickets: 2,
    },
    // It replays in both windows, and ends the first thread in each.
    Case {
        name: "a schedule that is kept in two windows",
        files: &[
            TWO_WINDOWS,
            ("t1.trace", "write x 1\nmark\nwrite x 2\n"),
            ("t2.trace", "mark\nread x 2\n"),
        ],
        kept: &[(1, 0)],
        due: &[
            &[(1, 0, Due::Given(&[(1, 0)]))],
            &[(1, 0, Due::Given(&[(1, 0)])), (2, 0, Due::Reached)],
        ],
        tickets: 1,
    },
    // The read finds 0, so that the schedule does not replay, and gives nothing.
    Case {
        name: "a schedule that does not replay",
        files: &[TWO, ("t1.trace", "write x 1\n"), ("t2.trace", "read x 1\n")],
        kept: &[(2, 0), (1, 0)],
        due: &[&[(1, 0, Due::Reached), (2, 0, Due::Reached)]],
        tickets: 2,
    },
];

fn all_hold<R: AllocGlobal + Threads + Wait + Sync + Abort>(rt: &R, cases: &[Case], workers: u32)
    requires { (1 ≤ workers) × (workers ≤ 16) }
{
    for case in cases {
        assert!(rt; holds(rt, case, workers), "{}", case.name);
    }
}

// That so many workers answer each case with nothing kept.
fn answer_each<R: AllocGlobal + Threads + Wait + Sync + Abort>(rt: &R, workers: u32)
    requires { (1 ≤ workers) × (workers ≤ 16) }
{
    all_hold(rt, &CASES, workers);
}

// That they answer each with a schedule that is kept.
fn answer_with_kept<R: AllocGlobal + Threads + Wait + Sync + Abort>(rt: &R, workers: u32)
    requires { (1 ≤ workers) × (workers ≤ 16) }
{
    all_hold(rt, &KEPT, workers);
}

#[test]
fn one_worker_answers_each_end(rt: HostRuntime) {
    answer_each(&rt, 1);
    answer_with_kept(&rt, 1);
}

#[test]
fn two_workers_answer_each_end(rt: HostRuntime) {
    answer_each(&rt, 2);
    answer_with_kept(&rt, 2);
}

// How many of the three ends are asked with this schedule, where that is too much for the budget.
fn asked<R: AllocGlobal + Threads + Sync + Abort>(rt: &R, kept: Ids, budget: u64) -> Option<u64> {
    let recording = recording_of(rt, &THREE_ENDS);
    let question = question_of(rt, rt.alloc(), kept);
    let asked = too_much(rt, rt.alloc(), &recording, &question, budget).expect(rt, "memory");
    drop(question);
    drop(recording);
    asked
}

// With nothing kept three ends are asked: 1,200,000 is over 1,000,000. A schedule that ends the first thread leaves two, or
// 800,000, and one that ends the third too leaves one. One that stops before the end of the first thread, or that does not
// replay, since the third thread reads too early, leaves three.
const LIMITS: [(Ids, u64, Option<u64>); 6] = [
    (&[], 400_000, Some(3)),
    (&[(1, 0), (1, 1)], 400_000, None),
    (&[(1, 0), (1, 1)], 600_000, Some(2)),
    (&[(1, 0), (3, 0), (1, 1)], 600_000, None),
    (&[(1, 0)], 400_000, Some(3)),
    (&[(3, 0), (1, 0), (1, 1)], 400_000, Some(3)),
];

#[test]
fn what_is_given_has_no_ticket(rt: HostRuntime) {
    for (kept, budget, due) in LIMITS {
        assert!(rt; asked(&rt, kept, budget) == due, "{budget}");
    }
}
