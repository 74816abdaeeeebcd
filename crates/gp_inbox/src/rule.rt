ghost use Rattle.gp_inbox.specs.Rule.{Kept};
ghost use Rattle.gp_inbox.specs.Views.{blank, HasRoom, joined, left_of, one_of, opened, Owes, pushed_one, spent, Takes};
ghost use Rattle.std.specs.Prelude.{◌≡◌, ℕ, List, [], Option, None};
ghost use Rattle.gp_clause.specs.declared.problem.Problem.{Problem};

use crossbeam_queue::protocol::{Join, Lesson, Outcome, Protocol, Split};
use gp_clause::Problem;
use gp_derivation::SharedClause;
use std::collections::LinkedList;
use std::marker::{Brand, PhantomData};

/// What a pass knows. No value of it is made.
pub struct View {
    /// The problem for which each clause of the inbox is good. A pass that was joined to another has none.
    pub base: Option<Problem>,
    /// The numbers of all senders of the inbox.
    pub senders: LinkedList<u32>,
    /// The numbers under which it may push.
    pub numbers: LinkedList<u32>,
    /// Whether it may take.
    pub takes: bool,
    /// What was pushed through it, in order.
    pub pushed: LinkedList<SharedClause>,
    /// What was taken through it, in order.
    pub taken: LinkedList<SharedClause>,
}

pub(crate) struct InboxRule;

impl Protocol<SharedClause, View> for InboxRule {
    ghost holds = { Kept };

    ghost first = { blank };
}

// A clause is pushed, or the queue is full, which the pass knows it is not.
pub(crate) struct Push;

impl Outcome<SharedClause, View> for Push {
    ghost then = { λ view clause after. after ≡ pushed_one view clause };
}

impl Lesson<SharedClause, View> for Push {
    ghost fact = { HasRoom };
}

// A clause is taken, or the queue is empty.
pub(crate) struct Take;

impl Outcome<SharedClause, View> for Take {
    ghost then = { Takes };
}

impl Lesson<SharedClause, View> for Take {
    ghost fact = { Owes };
}

// The first number is handed over.
pub(crate) struct HandOver;

impl Split<View> for HandOver {
    ghost left = { left_of };

    ghost right = { one_of };
}

// One pass knows what both knew.
pub(crate) struct Both;

impl Join<View> for Both {
    ghost both = { joined };

    ghost spent = { spent };
}

/// The base and the senders of an inbox.
pub(crate) trait Naming {
    ghost base: { Option Problem };

    ghost senders: { List ℕ };
}

impl Naming for Brand {
    ghost base = { None };

    ghost senders = { [] };
}

// A pass that holds every number and may take learns the base and the senders. The other half of the split is spent.
pub(crate) struct Open<N> {
    naming: PhantomData<N>,
}

impl<N: Naming> Split<View> for Open<N> {
    ghost left = { λ _. opened N.base N.senders };

    ghost right = { λ _. spent };
}
