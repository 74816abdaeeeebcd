ghost use Rattle.std.specs.Arc.{arc_value};
ghost use Rattle.std.specs.Prelude.{◌≡◌, ◌++◌, ◌∷◌, [], All, IfOk, IsTrue};
ghost use Rattle.gp_clause.specs.Problem.{IsValidProblem};
ghost use Rattle.gp_derivation.specs.Exchange.{IsGood, IsGoodBy};
ghost use Rattle.gp_clause.specs.Edge.{IsSolvable};

use crate::derivation::TWO;
use crate::fixture::{
    EIGHT, FREE, Rows, are_lits, are_named, clause_of, is_asked, is_solvable, is_valid, problem_of,
    query_of,
};
use crate::memory_mail::{Letters, MemoryMail, Offer};
use crate::search::{BACK, Due, ORDERED, is_due};
use crate::small_cones::is_fit;
use gp_base::Row;
use gp_certificate::{Certificate, Step, check_certificate, shares_nothing};
use gp_clause::{Clause, Kind, Problem, Query};
use gp_derivation::{LogEntry, Origin, SharedClause};
use gp_search::{Search, Verdict};
use std::alloc::{AllocError, Global};
use std::collections::VecDeque;
use std::marker::Brand;
use std::process::Abort;
use std::sync::Arc;

// The number under which the clauses come that a mail gives.
const SENDER: u32 = 2;

// A certificate of one step without hints.
fn plain(rt: &impl Abort, alloc: Global, clause: &Clause) -> Certificate
    ensures { result.steps ≡ record { clause = clause.now; hints = [] } ∷ [] }
{
    let mut steps = Row::new(alloc);
    steps
        .push(Step {
            clause: clause.clone().expect(rt, "memory"),
            hints: Row::new(alloc),
        })
        .expect(rt, "memory");
    Certificate { steps }
}

// The query that has no locals and assumes nothing.
fn nothing(alloc: Global) -> Query
    ensures { result.locals ≡ [] }
{
    Query {
        locals: Row::new(alloc),
        assumed: Row::new(alloc),
    }
}

// Whether a clause is good by one step without hints.
fn is_good(
    alloc: Global,
    problem: &Problem,
    query: &Query,
    clause: &Clause,
    certificate: &Certificate,
) -> Result<bool, AllocError>
    requires valid { IsValidProblem problem.now }
    requires none { query.now.locals ≡ [] }
    requires plain { certificate.now.steps ≡ record { clause = clause.now; hints = [] } ∷ [] }
    ensures { IfOk result (λ good. IsTrue good → IsGoodBy problem.now clause.now certificate.now) }
{
    shares_nothing();
    if clause.len() > 8 {
        return Ok(false);
    }
    if !are_named(problem.kinds.len(), clause.lits()) {
        return Ok(false);
    }
    if !is_asked(problem, query) {
        return Ok(false);
    }
    Ok(check_certificate(alloc, problem, &[], query, certificate)?)
}

fn with_sender(
    rt: &impl Abort,
    alloc: Global,
    sender: u32,
    clause: Clause,
    certificate: Certificate,
) -> SharedClause
    ensures sender { result.sender ≡ sender }
    ensures parts { (result.clause ≡ clause) × (arc_value result.certificate ≡ certificate) }
{
    SharedClause {
        sender,
        clause,
        certificate: Arc::new(alloc, certificate).expect(rt, "memory"),
    }
}

/// A clause of a sender that is good by one step without hints.
pub fn shared_of(
    rt: &impl Abort,
    alloc: Global,
    problem: &Problem,
    sender: u32,
    words: &[i32],
) -> SharedClause
    requires { IsValidProblem problem.now }
    ensures sender { result.sender ≡ sender }
    ensures good { IsGood problem.now result }
{
    let clause = clause_of(rt, alloc, words);
    let certificate = plain(rt, alloc, &clause);
    let query = nothing(alloc);
    assert!(rt; is_good(alloc, problem, &query, &clause, &certificate).expect(rt, "memory"));
    with_sender(rt, alloc, sender, clause, certificate)
}

fn wait(rt: &impl Abort, waiting: &mut VecDeque<SharedClause>, shared: SharedClause)
    ensures { waiting.new.items ≡ waiting.old.items ++ shared ∷ [] }
{
    waiting.push_back(shared).expect(rt, "memory");
}

fn waiting_of(
    rt: &impl Abort,
    alloc: Global,
    problem: &Problem,
    clauses: &[&[i32]],
) -> VecDeque<SharedClause>
    requires { IsValidProblem problem.now }
    ensures { All (IsGood problem.now) result.items }
{
    let mut waiting = VecDeque::new(alloc);
    for words in clauses {
        let shared = shared_of(rt, alloc, problem, SENDER, words);
        wait(rt, &mut waiting, shared);
    }
    waiting
}

// What a search over a problem is asked by a mail in which clauses wait: its locals, what is assumed, the verdict, how long
// its log then is, and the places of the entries that it offered.
#[derive(Drop, Clone, Copy)]
struct Mailed<'a> {
    waiting: &'a [&'a [i32]],
    locals: &'a [Kind],
    assumed: &'a [i32],
    due: Due<'a>,
    logged: usize,
    offered: &'a [u32],
    again: Option<Again<'a>>,
}

// What the same search is asked next, when no clause waits, and how long its log then is.
#[derive(Drop, Clone, Copy)]
struct Again<'a> {
    assumed: &'a [i32],
    due: Due<'a>,
    logged: usize,
}

// Whether an entry was taken, with this clause.
fn is_taken(entry: &LogEntry, words: &[i32]) -> bool {
    let taken = match &entry.origin {
        Origin::Learned => false,
        Origin::Taken { sender, .. } => *sender == SENDER,
    };
    taken && entry.step.hints.is_empty() && are_lits(entry.step.clause.lits(), words)
}

fn is_learned(entry: &LogEntry) -> bool {
    matches!(&entry.origin, Origin::Learned)
}

// Whether a log took clauses that waited, and learned what comes after them.
fn takes_all(log: &[LogEntry], waiting: &[&[i32]]) -> bool {
    let Some((taken, learned)) = log.split_at_checked(waiting.len()) else {
        return false;
    };
    are_taken(taken, waiting) && learned.iter().all(is_learned)
}

fn are_taken(entries: &[LogEntry], waiting: &[&[i32]]) -> bool {
    entries
        .iter()
        .zip(waiting)
        .all(|(entry, words)| is_taken(entry, words))
}

// Whether the entry at this place was offered.
fn is_offer(log: &[LogEntry], offer: &Offer, place: u32) -> bool {
    match log.get(place as usize) {
        Some(entry) => offer.entry == place && offer.clause.lits() == entry.step.clause.lits(),
        None => false,
    }
}

// Whether the entries at these places were offered, and no others.
fn are_offers(log: &[LogEntry], offered: &[Offer], places: &[u32]) -> bool {
    offered.len() == places.len()
        && offered
            .iter()
            .zip(places)
            .all(|(offer, place)| is_offer(log, offer, *place))
}

// Whether the learned entries at these places are fit to share, and no other learned ones.
fn are_fit(
    rt: &impl Abort,
    alloc: Global,
    problem: &Problem,
    log: &[LogEntry],
    places: &[u32],
) -> bool {
    assert!(rt; log.len() < 1000);
    let mut all = true;
    for (place, entry) in log.iter().enumerate() {
        let due = places.contains(&(place as u32));
        all &= !is_learned(entry) || is_fit(rt, alloc, problem, log, place as u32) == due;
    }
    all
}

// Whether a search answers what it is asked next as it is due.
fn answers_again<L: Letters>(
    rt: &impl Abort,
    alloc: Global,
    problem: &Problem,
    search: &mut Search,
    mail: &mut MemoryMail<L>,
    again: &Again,
) -> bool
    requires valid { IsValidProblem problem.now }
    requires same { search.old.problem ≡ problem.now }
    requires mail { mail.old.problem.now ≡ problem.now }
{
    let query = query_of(rt, alloc, &[], again.assumed);
    assert!(rt; is_asked(problem, &query));
    assert!(rt; problem.clauses.len() < 1000 && search.log().len() < 1000);
    let verdict = search.ask(&query, 27, mail).expect(rt, "memory");
    let log = search.log();
    let due = is_due(rt, alloc, problem, log, &verdict, &again.due, &[]);
    let logged = log.len() == again.logged;
    drop(verdict);
    drop(query);
    due && logged
}

// The same, where it is asked again.
fn ends_again<L: Letters>(
    rt: &impl Abort,
    alloc: Global,
    problem: &Problem,
    search: &mut Search,
    mail: &mut MemoryMail<L>,
    again: &Option<Again>,
) -> bool
    requires valid { IsValidProblem problem.now }
    requires same { search.old.problem ≡ problem.now }
    requires mail { mail.old.problem.now ≡ problem.now }
{
    match again {
        Some(again) => answers_again(rt, alloc, problem, search, mail, again),
        None => true,
    }
}

// Whether a search that is asked by a mail takes, learns and offers what is due.
fn asks<L: Letters>(
    rt: &impl Abort,
    alloc: Global,
    problem: &Problem,
    query: &Query,
    waiting: VecDeque<SharedClause>,
    mailed: &Mailed,
) -> bool
    requires valid { IsValidProblem problem.now }
    requires solvable { IsSolvable problem.now.edges }
    requires good { All (IsGood problem.now) waiting.items }
    requires letters { waiting.items ≡ L.all }
{
    assert!(rt; is_asked(problem, query));
    assert!(rt; problem.clauses.len() < 1000);
    let mut search = Search::new(alloc, problem).expect(rt, "memory");
    let mut mail: MemoryMail<L> = MemoryMail::new(alloc, problem, waiting);
    let verdict = search.ask(query, 27, &mut mail).expect(rt, "memory");
    let told = is_told(rt, alloc, problem, &search, &verdict, &mail, mailed);
    drop(verdict);
    let ends = told && ends_again(rt, alloc, problem, &mut search, &mut mail, &mailed.again);
    drop(mail);
    drop(search);
    ends
}

// Whether a search that was asked by a mail has taken, learned and offered what is due.
fn is_told<L: Letters>(
    rt: &impl Abort,
    alloc: Global,
    problem: &Problem,
    search: &Search,
    verdict: &Verdict,
    mail: &MemoryMail<L>,
    mailed: &Mailed,
) -> bool {
    let log = search.log();
    is_due(rt, alloc, problem, log, verdict, &mailed.due, &[])
        && log.len() == mailed.logged
        && search.learned_from() as usize == mailed.waiting.len()
        && takes_all(log, mailed.waiting)
        && mail.empty() == 1
        && are_offers(log, mail.offered(), mailed.offered)
        && are_fit(rt, alloc, problem, log, mailed.offered)
}

fn is_answered(rt: &impl Abort, alloc: Global, problem: &Problem, mailed: &Mailed) -> bool
    requires valid { IsValidProblem problem.now }
    requires solvable { IsSolvable problem.now.edges }
{
    let waiting = waiting_of(rt, alloc, problem, mailed.waiting);
    let query = query_of(rt, alloc, mailed.locals, mailed.assumed);
    asks::<Brand>(rt, alloc, problem, &query, waiting, mailed)
}

fn answers(rt: &impl Abort, alloc: Global, rows: &Rows, mailed: &Mailed) -> bool {
    let problem = problem_of(rt, alloc, rows);
    assert!(rt; is_valid(&problem));
    assert!(rt; is_solvable(&[], problem.edges.as_slice()));
    let answered = is_answered(rt, alloc, &problem, mailed);
    drop(problem);
    answered
}

fn all_answer(rt: &impl Abort, alloc: Global, rows: &[(&str, Rows, Mailed)]) {
    for (name, problem, mailed) in rows {
        assert!(rt; answers(rt, alloc, problem, mailed), "{name}");
    }
}

// No valuation meets these clauses.
const NONE: Rows = Rows {
    points: 0,
    kinds: &FREE,
    edges: &[],
    clauses: &EIGHT,
};

#[test]
fn takes_and_offers_by_a_mail(rt: HostRuntime) {
    const ROWS: [(&str, Rows, Mailed); 5] = [
        (
            "one clause waits",
            TWO,
            Mailed {
                waiting: &[&[1]],
                locals: &[],
                assumed: &[],
                due: Due::Model(&[1]),
                logged: 1,
                offered: &[],
                again: None,
            },
        ),
        (
            "none waits",
            NONE,
            Mailed {
                waiting: &[],
                locals: &[],
                assumed: &[],
                due: Due::Refuted(&[]),
                logged: 3,
                offered: &[0, 1, 2],
                again: None,
            },
        ),
        (
            "two wait",
            NONE,
            Mailed {
                waiting: &[&[1, 2], &[1, -2]],
                locals: &[],
                assumed: &[],
                due: Due::Refuted(&[]),
                logged: 4,
                offered: &[2, 3],
                again: None,
            },
        ),
        // What was taken serves the next query too, so that nothing is learned for it.
        (
            "four wait",
            NONE,
            Mailed {
                waiting: &[&[1, 2], &[1, -2], &[-1, 2], &[-1, -2]],
                locals: &[],
                assumed: &[1],
                due: Due::Refuted(&[-1]),
                logged: 4,
                offered: &[],
                again: Some(Again {
                    assumed: &[-1],
                    due: Due::Refuted(&[1]),
                    logged: 4,
                }),
            },
        ),
        (
            "some rest on a local",
            ORDERED,
            Mailed {
                waiting: &[],
                locals: &BACK,
                assumed: &[6],
                due: Due::Refuted(&[-6]),
                logged: 2,
                offered: &[1],
                again: None,
            },
        ),
    ];
    all_answer(&rt, rt.alloc(), &ROWS)
}
