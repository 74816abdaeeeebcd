ghost use Rattle.std.specs.Prelude.{◌≡◌, ◌++◌, ◌∷◌, [], All, MatchOption, OnErr, OnOk, Some};
ghost use Rattle.std.specs.Option.{option_to_list};
ghost use Rattle.gp_derivation.specs.Exchange.{IsGood};
ghost use Rattle.gp_base.specs.Counts.{one_more};

use gp_clause::{Clause, Problem};
use gp_derivation::SharedClause;
use gp_search::Mail;
use std::alloc::{AllocError, Global};
use std::collections::VecDeque;
use std::marker::{Brand, Model, PhantomData};

/// The clauses that a mail gives in all, in order.
pub trait Letters {
    ghost use Rattle.std.specs.Prelude.{List};
    ghost use Rattle.gp_derivation.specs.declared.exchange.SharedClause.{SharedClause};

    ghost all: { List SharedClause };
}

impl Letters for Brand {
    ghost use Rattle.std.specs.Prelude.{[]};

    ghost all = { [] };
}

/// A clause that was offered, and its entry's place.
#[derive(Drop)]
pub struct Offer {
    pub entry: u32,
    pub clause: Clause,
}

// The clauses that are still to be given, what was offered, and how many takes found none.
#[derive(Drop)]
pub struct Pile<'a> {
    problem: &'a Problem,
    waiting: VecDeque<SharedClause>,
    offered: Vec<Offer>,
    empty: u64,
}

impl<'a> Pile<'a> {
    fn next(&mut self) -> Option<SharedClause>
        ensures problem { self.new.problem.now ≡ self.old.problem.now }
        ensures offered { self.new.offered.items ≡ self.old.offered.items }
        ensures waiting { self.old.waiting.items ≡ option_to_list result ++ self.new.waiting.items }
        ensures empty { MatchOption result (self.new.empty ≡ one_more self.old.empty) (λ _. self.new.empty ≡ self.old.empty) }
    {
        match self.waiting.pop_front() {
            Some(shared) => Some(shared),
            None => {
                self.empty = self.empty.saturating_add(1);
                None
            }
        }
    }

    fn keep(&mut self, entry: u32, shared: SharedClause) -> Result<(), AllocError>
        ensures problem { self.new.problem.now ≡ self.old.problem.now }
        ensures waiting { self.new.waiting.items ≡ self.old.waiting.items }
        ensures empty { self.new.empty ≡ self.old.empty }
        ensures ok { OnOk result (self.new.offered.items ≡ self.old.offered.items ++ record { entry = entry; clause = shared.clause } ∷ []) }
        ensures err { OnErr result (self.new.offered.items ≡ self.old.offered.items) }
    {
        let SharedClause { clause, .. } = shared;
        self.offered.push(Offer { entry, clause })?;
        Ok(())
    }
}

/// A mail in memory, which gives the clauses that wait in it and keeps what it is offered.
#[derive(Drop)]
pub struct MemoryMail<'a, L: Letters> {
    pile: Pile<'a>,
    letters: PhantomData<L>,
}

impl<'a, L: Letters> Model for MemoryMail<'a, L> {
    ghost use Rattle.std.specs.Prelude.{◌≡◌, ◌-◌, All, drop, length};
    ghost use Rattle.gp_derivation.specs.Exchange.{IsGood};
    ghost use Rattle.gp_solver_rows.specs.declared.memory_mail.Pile.{Pile};

    ghost Value = { Pile };

    ghost view = { λ mail. mail.pile };

    ghost invariant = { λ mail. (mail.pile.waiting.items ≡ drop (length L.all - length mail.pile.waiting.items) L.all) × All (IsGood mail.pile.problem.now) mail.pile.waiting.items };
}

impl<'a, L: Letters> MemoryMail<'a, L> {
    ghost use Rattle.std.specs.Prelude.{◌≡◌, All, map};
    ghost use Rattle.gp_derivation.specs.Exchange.{IsGood};

    /// The mail of a search over this problem.
    pub fn new(
        alloc: Global,
        problem: &'a Problem,
        waiting: VecDeque<SharedClause>,
    ) -> MemoryMail<'a, L>
        requires all { waiting.items ≡ L.all }
        requires good { All (IsGood problem.now) waiting.items }
        ensures { result.problem.now ≡ problem.now }
    {
        let pile = Pile {
            problem,
            waiting,
            offered: Vec::new(alloc),
            empty: 0,
        };
        MemoryMail {
            pile,
            letters: PhantomData,
        }
    }

    /// What was offered, in order.
    pub fn offered(&self) -> &[Offer]
        ensures { result.now ≡ self.now.offered.items }
    {
        self.pile.offered.as_slice()
    }

    /// How many takes found it empty.
    pub fn empty(&self) -> u64
        ensures { result ≡ self.now.empty }
    {
        self.pile.empty
    }
}

impl<'a, L: Letters> Mail for MemoryMail<'a, L> {
    ghost use Rattle.std.specs.Prelude.{◌-◌, Some, length, map, take, true};
    ghost use Rattle.gp_solver_rows.specs.declared.memory_mail.Offer.{Offer};

    ghost problem = { λ mail. mail.problem.now };

    ghost number = { λ _. 1 };

    ghost may_give = { λ _. true };

    ghost told = { λ mail. Some (record { gave = take (length L.all - length mail.waiting.items) L.all; offered = map (λ (offer : Offer). (offer.entry, offer.clause)) mail.offered.items; empty = mail.empty }) };

    fn sender(&self) -> u32 {
        1
    }

    fn take(&mut self) -> Option<SharedClause> {
        self.pile.next()
    }

    fn offer(&mut self, entry: u32, clause: SharedClause) -> Result<(), AllocError> {
        self.pile.keep(entry, clause)
    }
}
