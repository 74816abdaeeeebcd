ghost use Rattle.std.specs.Prelude.{◌≡◌, ◌≤◌, IfOk, OnOk, false, length, ◌<◌, ◌++◌, ◌∷◌, [], ℕ, List};
ghost use Rattle.gp_clause.specs.Problem.{IsValidProblem, IsValidQuery};
ghost use Rattle.gp_search.specs.Verdict.{HasRoom};
ghost use Rattle.gp_clause.specs.Edge.{IsSolvable};
ghost use Rattle.gp_workers.specs.Worker.{answer_by, record_of, IsAnswerBy, IsFresh, TakesTurn, empty_record, HasWorked};
ghost use Rattle.gp_clause.specs.declared.problem.Problem.{Problem};
ghost use Rattle.gp_workers.specs.Crew.{IsDone};
ghost use Rattle.gp_tickets.specs.Tickets.{hand_of, IsSingle, IsUnused};
ghost use Rattle.gp_workers.specs.Mail.{IsSilent, SharesSoFar, TellsOrGivesNone};
ghost use Rattle.gp_workers.specs.Work.{CanBeAsked};

use crate::crew::{Job, Worked, Workload};
use crate::mail::BoundedMail;
use crate::work::WorkAnswer;
use gp_base::Row;
use gp_certificate::certificate_follows;
use gp_clause::{Problem, Query};
use gp_derivation::{Turn, WorkerRecord, cone_of_stays, fit_stays, spent_stays};
use gp_outside::Gate;
use gp_search::{Mail, Search, Verdict};
use gp_tickets::{Drawer, Drawn, Made};
use std::alloc::{AllocError, Global};

// A worker: its number, from 1, its search, and its turns so far.
#[derive(Drop)]
pub(crate) struct Worker<'a> {
    pub(crate) number: u32,
    search: Search<'a>,
    turns: Vec<Turn>,
}

impl<'a> Worker<'a> {
    // A worker before its first turn.
    pub(crate) fn new(
        alloc: Global,
        problem: &'a Problem,
        number: u32,
    ) -> Result<Worker<'a>, AllocError>
        requires valid { IsValidProblem problem.now }
        requires solvable { IsSolvable problem.now.edges }
        ensures problem { IfOk result (λ worker. worker.search.problem ≡ problem.now) }
        ensures number { IfOk result (λ worker. worker.number ≡ number) }
        ensures fresh { IfOk result IsFresh }
    {
        let search = Search::new(alloc, problem)?;
        Ok(Worker {
            number,
            search,
            turns: Vec::new(alloc),
        })
    }

    // Answers the query of a ticket in a turn.
    pub(crate) fn answer<M: Mail>(
        &mut self,
        ticket: u64,
        query: &Query,
        budget: u64,
        mail: &mut M,
    ) -> Result<WorkAnswer, AllocError>
        requires valid { IsValidQuery self.old.search.problem query.now }
        requires budget { 1 ≤ budget }
        requires few { HasRoom self.old.search budget }
        requires mail { M.problem mail.old ≡ self.old.search.problem }
        ensures problem { M.problem mail.new ≡ M.problem mail.old }
        ensures number { M.number mail.new ≡ M.number mail.old }
        ensures may_give { M.may_give mail.new ≡ M.may_give mail.old }
        ensures none_taken { M.may_give mail.old ≡ false → OnOk result (self.new.search.learned ≡ length self.old.search.log) }
        ensures turn { OnOk result (TakesTurn query.now ticket budget self.old self.new (M.told mail.old) (M.told mail.new)) }
        ensures answer { IfOk result
            (IsAnswerBy self.old.search.problem query.now budget self.old.number (record_of self.new) ticket) }
    {
        let begins = self.search.log().len() as u32;
        let verdict = self.search.ask(query, budget, mail)?;
        let learned = self.search.learned_from();
        let ends = self.search.log().len() as u32;
        let Ok(()) = self.turns.push(Turn {
            ticket,
            begins,
            learned,
            ends,
        })
        else {
            drop(verdict);
            return Err(AllocError);
        };
        Ok(answer_of(self.number, verdict))
    }

    // What the worker did. Takes no memory.
    pub(crate) fn into_record(self) -> WorkerRecord
        ensures { result ≡ record_of self.entry }
    {
        let Worker {
            number: _,
            search,
            turns,
        } = self;
        let offered = Row::new(*turns.allocator());
        WorkerRecord {
            log: search.into_log(),
            turns: Row::from_vec(turns),
            offered,
        }
    }
}

// The answer of the worker of a number by a verdict of its search.
fn answer_of(number: u32, verdict: Verdict) -> WorkAnswer
    ensures { result ≡ answer_by number verdict }
{
    match verdict {
        Verdict::Model(valuation) => WorkAnswer::Model(valuation),
        Verdict::Refuted(last) => WorkAnswer::Refuted {
            worker: number,
            last,
        },
        Verdict::Spent { from, to } => WorkAnswer::Spent {
            worker: number,
            from,
            to,
        },
    }
}

// A worker answers the query of each ticket that it draws, by one search, until none is left. One that draws none makes no
// search, which costs as much as the problem is large.
pub(crate) fn work<G: Gate, M: BoundedMail>(
    alloc: Global,
    load: &Workload<'_, G>,
    job: Job,
    mail: &mut M,
) -> Result<Worked, AllocError>
    requires asked { CanBeAsked load.now.problem.now load.now.queries.now load.now.budget }
    requires count { load.now.tickets.now.count ≡ length load.now.queries.now }
    requires drawer { IsUnused load.now.tickets.now job.drawer }
    requires mail { M.problem mail.old ≡ load.now.problem.now }
    requires silent { IsSilent (M.told mail.old) }
    ensures number { M.number mail.new ≡ M.number mail.old }
    ensures problem { IfOk result (λ worked. M.problem mail.new ≡ load.now.problem.now) }
    ensures done { IfOk result (IsDone load.now.tickets.now load.now.problem.now load.now.queries.now load.now.budget job.number) }
    ensures none_offered { IfOk result (λ worked. worked.record.offered ≡ []) }
    ensures shares { IfOk result (λ worked. SharesSoFar load.now.problem.now worked.record.log (M.told mail.new)) }
{
    certificate_follows();
    let Job { number, mut drawer } = job;
    let Some(first) = load.tickets.draw(&mut drawer) else {
        return Ok(Worked::idle(alloc, drawer));
    };
    let mut worker = Worker::new(alloc, load.problem, number)?;
    match answer_drawn(alloc, load, &mut worker, &mut drawer, mail, first) {
        Ok(made) => {
            let record = worker.into_record();
            let drawn = Drawn { made, drawer };
            Ok(Worked { drawn, record })
        }
        Err(error) => {
            drop(worker);
            Err(error)
        }
    }
}

impl Worked {
    // What a worker hands back that drew no ticket. Takes no memory.
    fn idle(alloc: Global, drawer: Drawer) -> Worked
        ensures drawer { result.drawn.drawer ≡ drawer }
        ensures none_answered { result.drawn.made.items ≡ [] }
        ensures no_turn { result.record ≡ empty_record }
    {
        let record = WorkerRecord {
            log: Row::new(alloc),
            turns: Row::new(alloc),
            offered: Row::new(alloc),
        };
        let drawn = Drawn {
            made: Vec::new(alloc),
            drawer,
        };
        Worked { drawn, record }
    }
}

// The answers to the queries of the tickets that a worker draws, in order, of which it has drawn the first.
fn answer_drawn<G: Gate, M: BoundedMail>(
    alloc: Global,
    load: &Workload<'_, G>,
    worker: &mut Worker,
    drawer: &mut Drawer,
    mail: &mut M,
    first: u64,
) -> Result<Vec<Made<WorkAnswer>>, AllocError>
    requires asked { CanBeAsked worker.old.search.problem load.now.queries.now load.now.budget }
    requires count { load.now.tickets.now.count ≡ length load.now.queries.now }
    requires fresh { IsFresh worker.old }
    requires drawer { IsSingle load.now.tickets.now 0 drawer.old }
    requires first { (hand_of drawer.old).drawn ≡ first ∷ [] }
    requires within { first < length load.now.queries.now }
    requires mail { M.problem mail.old ≡ worker.old.search.problem }
    requires silent { IsSilent (M.told mail.old) }
    ensures number { OnOk result (worker.new.number ≡ worker.old.number) }
    ensures mail_number { M.number mail.new ≡ M.number mail.old }
    ensures mail_problem { IfOk result (λ answers. M.problem mail.new ≡ worker.new.search.problem) }
    ensures drawer { IfOk result (λ answers. IsSingle load.now.tickets.now 1 drawer.new) }
    ensures worked { IfOk result (λ answers.
        HasWorked worker.old.search.problem load.now.queries.now load.now.budget (hand_of drawer.new).drawn worker.new answers.items (M.told mail.new)) }
{
    let mut answers = Vec::new(alloc);
    match answer_all(load, worker, drawer, mail, first, &mut answers) {
        Ok(()) => Ok(answers),
        Err(error) => {
            drop(answers);
            Err(error)
        }
    }
}

// Answers the query of the first ticket, and then those of the tickets that a worker draws.
fn answer_all<G: Gate, M: BoundedMail>(
    load: &Workload<'_, G>,
    worker: &mut Worker,
    drawer: &mut Drawer,
    mail: &mut M,
    first: u64,
    answers: &mut Vec<Made<WorkAnswer>>,
) -> Result<(), AllocError>
    requires asked { CanBeAsked worker.old.search.problem load.now.queries.now load.now.budget }
    requires count { load.now.tickets.now.count ≡ length load.now.queries.now }
    requires fresh { IsFresh worker.old }
    requires drawer { IsSingle load.now.tickets.now 0 drawer.old }
    requires first { (hand_of drawer.old).drawn ≡ first ∷ [] }
    requires within { first < length load.now.queries.now }
    requires mail { M.problem mail.old ≡ worker.old.search.problem }
    requires silent { IsSilent (M.told mail.old) }
    requires none { answers.old.items ≡ [] }
    ensures number { OnOk result (worker.new.number ≡ worker.old.number) }
    ensures mail_number { M.number mail.new ≡ M.number mail.old }
    ensures mail_problem { OnOk result (M.problem mail.new ≡ worker.new.search.problem) }
    ensures drawer { OnOk result (IsSingle load.now.tickets.now 1 drawer.new) }
    ensures worked { OnOk result (HasWorked worker.old.search.problem load.now.queries.now load.now.budget (hand_of drawer.new).drawn worker.new answers.new.items (M.told mail.new)) }
{
    mail.gives_few();
    answer_one(load, worker, first, mail, answers)?;
    while let Some(ticket) = load.tickets.draw(drawer) {
        mail.gives_few();
        answer_one(load, worker, ticket, mail, answers)?;
    }
    Ok(())
}

// Answers the query of one ticket more.
fn answer_one<G: Gate, M: Mail>(
    load: &Workload<'_, G>,
    worker: &mut Worker,
    ticket: u64,
    mail: &mut M,
    answers: &mut Vec<Made<WorkAnswer>>,
) -> Result<(), AllocError>
    requires asked { CanBeAsked worker.old.search.problem load.now.queries.now load.now.budget }
    requires ticket { ticket < length load.now.queries.now }
    requires few { HasRoom worker.old.search load.now.budget }
    requires mail { M.problem mail.old ≡ worker.old.search.problem }
    requires tells { TellsOrGivesNone (M.may_give mail.old) (M.told mail.old) }
    ensures number { OnOk result (worker.new.number ≡ worker.old.number) }
    ensures problem { OnOk result (M.problem mail.new ≡ worker.new.search.problem) }
    ensures mail_number { M.number mail.new ≡ M.number mail.old }
    ensures may_give { M.may_give mail.new ≡ M.may_give mail.old }
    ensures worked { (problem : Problem) (drawn : List ℕ) → HasWorked problem load.now.queries.now load.now.budget drawn worker.old answers.old.items (M.told mail.old)
        → OnOk result (HasWorked problem load.now.queries.now load.now.budget (drawn ++ ticket ∷ []) worker.new answers.new.items (M.told mail.new)) }
{
    spent_stays();
    cone_of_stays();
    fit_stays();
    load.gate.pass(worker.number, ticket);
    let answer = worker.answer(ticket, &load.queries[ticket as usize], load.budget, mail)?;
    answers.push(Made {
        number: ticket,
        value: answer,
    })?;
    Ok(())
}
