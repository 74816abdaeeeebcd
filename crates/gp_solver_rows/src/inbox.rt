// Inboxes of two senders: in which order clauses come, and that one serves another problem once it is empty.
ghost use Rattle.crossbeam_queue.specs.Passes.{view};
ghost use Rattle.gp_clause.specs.Problem.{IsValidProblem};
ghost use Rattle.gp_inbox.specs.Passes.{IsOf};
ghost use Rattle.gp_inbox.specs.Views.{IsDrained, IsWhole, MayPush, sender_view, taker_view};
ghost use Rattle.std.specs.Prelude.{◌≡◌, ◌<◌, ◌+◌, true, Some, [], ◌∷◌, IfSome, IsTrue, length};

use crate::fixture::{Rows, are_lits, is_valid, problem_of};
use crate::passing::shared_of;
use gp_clause::{Kind, Problem};
use gp_derivation::SharedClause;
use gp_inbox::{Inbox, Pass};
use std::alloc::Global;
use std::process::Abort;
use std::sync::Wait;

// Four free variables and a clause that is false, by which every clause passes. The points tell one problem from another.
fn no_way_out(points: u32) -> Rows<'static> {
    Rows {
        points,
        kinds: &[Kind::Free, Kind::Free, Kind::Free, Kind::Free],
        edges: &[],
        clauses: &[&[]],
    }
}

// Whether the unit clause of a sender and a word was got, or nothing where nothing is due.
fn is_due(got: &Option<SharedClause>, due: Option<(u32, i32)>) -> bool {
    match (got, due) {
        (Some(shared), Some((sender, word))) => {
            shared.sender == sender && are_lits(shared.clause.lits(), &[word])
        }
        (None, None) => true,
        _ => false,
    }
}

// Offers the clause that a word spells, where less than a thousand were pushed through the pass.
fn send<R: Wait + Abort>(
    rt: &R,
    alloc: Global,
    inbox: &Inbox,
    base: &Problem,
    pass: &mut Pass,
    sender: u32,
    word: i32,
)
    requires base { IsValidProblem base.now }
    requires own { IsOf inbox.now pass.old }
    requires same { (view pass.old).base ≡ Some base.now }
    requires number { MayPush (view pass.old) sender }
    requires few { length (view pass.old).pushed < 1000 }
    ensures own { IsOf inbox.now pass.new }
    ensures same { (view pass.new).base ≡ (view pass.old).base }
    ensures senders { (view pass.new).senders ≡ (view pass.old).senders }
    ensures numbers { (view pass.new).numbers ≡ (view pass.old).numbers }
    ensures takes { (view pass.new).takes ≡ (view pass.old).takes }
    ensures more { length (view pass.new).pushed ≡ length (view pass.old).pushed + 1 }
{
    let shared = shared_of(rt, alloc, base, sender, &[word]);
    inbox.offer(rt, pass, shared);
}

// Takes the next clause. All else that the pass knows stays.
fn next<R: Wait>(rt: &R, inbox: &Inbox, pass: &mut Pass) -> Option<SharedClause>
    requires own { IsOf inbox.now pass.old }
    requires takes { (view pass.old).takes ≡ true }
    ensures own { IsOf inbox.now pass.new }
    ensures same { (view pass.new).base ≡ (view pass.old).base }
    ensures senders { (view pass.new).senders ≡ (view pass.old).senders }
    ensures numbers { (view pass.new).numbers ≡ (view pass.old).numbers }
    ensures takes { (view pass.new).takes ≡ true }
    ensures pushed { (view pass.new).pushed ≡ (view pass.old).pushed }
{
    inbox.take(rt, pass)
}

// Takes the next clause, and tells whether it is the one that is due.
fn takes<R: Wait>(rt: &R, inbox: &Inbox, pass: &mut Pass, due: Option<(u32, i32)>) -> bool
    requires own { IsOf inbox.now pass.old }
    requires takes { (view pass.old).takes ≡ true }
    ensures own { IsOf inbox.now pass.new }
    ensures same { (view pass.new).base ≡ (view pass.old).base }
    ensures senders { (view pass.new).senders ≡ (view pass.old).senders }
    ensures numbers { (view pass.new).numbers ≡ (view pass.old).numbers }
    ensures takes { (view pass.new).takes ≡ true }
    ensures pushed { (view pass.new).pushed ≡ (view pass.old).pushed }
{
    let got = next(rt, inbox, pass);
    let due = is_due(&got, due);
    drop(got);
    due
}

// Three clauses of two senders, each through its own pass, and one more through the joined pass.
fn exchange<R: Wait + Abort>(
    rt: &R,
    alloc: Global,
    base: &Problem,
    inbox: &Inbox,
    two: Pass,
    three: Pass,
    taker: Pass,
) -> bool
    requires base { IsValidProblem base.now }
    requires two { IsOf inbox.now two × (view two ≡ sender_view base.now (2 ∷ 3 ∷ []) 2) }
    requires three { IsOf inbox.now three × (view three ≡ sender_view base.now (2 ∷ 3 ∷ []) 3) }
    requires taker { IsOf inbox.now taker × (view taker ≡ taker_view base.now (2 ∷ 3 ∷ [])) }
{
    let mut two = two;
    let mut three = three;
    let mut taker = taker;
    let none = takes(rt, inbox, &mut taker, None);
    send(rt, alloc, inbox, base, &mut two, 2, 1);
    send(rt, alloc, inbox, base, &mut three, 3, 2);
    send(rt, alloc, inbox, base, &mut two, 2, 3);
    let first = takes(rt, inbox, &mut taker, Some((2, 1)));
    let second = takes(rt, inbox, &mut taker, Some((3, 2)));
    let third = takes(rt, inbox, &mut taker, Some((2, 3)));
    let empty = takes(rt, inbox, &mut taker, None);
    inbox.rejoin(&mut taker, two);
    inbox.rejoin(&mut taker, three);
    send(rt, alloc, inbox, base, &mut taker, 3, 4);
    let last = takes(rt, inbox, &mut taker, Some((3, 4)));
    let end = takes(rt, inbox, &mut taker, None);
    drop(taker);
    none && first && second && third && empty && last && end
}

// Whether all that was pushed under the numbers of the pass was taken.
fn is_drained<R: Wait>(rt: &R, inbox: &Inbox, pass: &mut Pass) -> bool
    requires own { IsOf inbox.now pass.old }
    requires takes { (view pass.old).takes ≡ true }
    ensures own { IsOf inbox.now pass.new }
    ensures drained { IsTrue result → IsDrained (view pass.new) × (view pass.new ≡ view pass.old) }
{
    inbox.take(rt, pass).is_none()
}

// One clause of the first problem, and an exchange over the second once the passes are joined.
fn renew<R: Wait + Abort>(
    rt: &R,
    alloc: Global,
    first: &Problem,
    second: &Problem,
    inbox: &Inbox,
    two: Pass,
    three: Pass,
    taker: Pass,
) -> bool
    requires first { IsValidProblem first.now }
    requires second { IsValidProblem second.now }
    requires two { IsOf inbox.now two × (view two ≡ sender_view first.now (2 ∷ 3 ∷ []) 2) }
    requires three { IsOf inbox.now three × (view three ≡ sender_view first.now (2 ∷ 3 ∷ []) 3) }
    requires taker { IsOf inbox.now taker × (view taker ≡ taker_view first.now (2 ∷ 3 ∷ [])) }
{
    let mut two = two;
    let mut taker = taker;
    send(rt, alloc, inbox, first, &mut two, 2, 4);
    let got = takes(rt, inbox, &mut taker, Some((2, 4)));
    inbox.rejoin(&mut taker, two);
    inbox.rejoin(&mut taker, three);
    if !is_drained(rt, inbox, &mut taker) {
        return false;
    }
    match renewed(rt, alloc, inbox, &mut taker, second) {
        Some((two, three)) => exchange(rt, alloc, second, inbox, two, three, taker) && got,
        None => false,
    }
}

// The passes of two senders, once an inbox that is empty serves another problem.
fn renewed(
    rt: &impl Abort,
    alloc: Global,
    inbox: &Inbox,
    taker: &mut Pass,
    base: &Problem,
) -> Option<(Pass, Pass)>
    requires own { IsOf inbox.now taker.old }
    requires whole { IsWhole (view taker.old) }
    requires same { (view taker.old).senders ≡ 2 ∷ 3 ∷ [] }
    ensures senders { IfSome result (λ made. (IsOf inbox.now made.0 × (view made.0 ≡ sender_view base.now (2 ∷ 3 ∷ []) 2)) × (IsOf inbox.now made.1 × (view made.1 ≡ sender_view base.now (2 ∷ 3 ∷ []) 3))) }
    ensures taker { IsOf inbox.now taker.new × (view taker.new ≡ taker_view base.now (2 ∷ 3 ∷ [])) }
{
    let passes = inbox
        .renew(alloc, taker, base, &[2, 3])
        .expect(rt, "memory");
    both(passes)
}

// An inbox of two senders, their passes and the taker's.
fn of_two(rt: &impl Abort, alloc: Global, base: &Problem) -> Option<(Inbox, Pass, Pass, Pass)>
    ensures { IfSome result (λ made. (IsOf made.0 made.1 × (view made.1 ≡ sender_view base.now (2 ∷ 3 ∷ []) 2)) × (IsOf made.0 made.2 × (view made.2 ≡ sender_view base.now (2 ∷ 3 ∷ []) 3)) × (IsOf made.0 made.3 × (view made.3 ≡ taker_view base.now (2 ∷ 3 ∷ [])))) }
{
    let (inbox, passes, taker) = Inbox::new(alloc, base, &[2, 3]).expect(rt, "memory");
    match both(passes) {
        Some((two, three)) => Some((inbox, two, three, taker)),
        None => None,
    }
}

fn both(passes: Vec<Pass>) -> Option<(Pass, Pass)>
    ensures { IfSome result (λ both. passes.items ≡ both.0 ∷ both.1 ∷ []) }
{
    let mut passes = passes;
    let second = passes.pop()?;
    let first = passes.pop()?;
    if !passes.is_empty() {
        return None;
    }
    Some((first, second))
}

// Whether the clauses of two senders come in the order of their offers.
fn is_in_order<R: Wait + Abort>(rt: &R, alloc: Global, base: &Problem) -> bool
    requires { IsValidProblem base.now }
{
    match of_two(rt, alloc, base) {
        Some((inbox, two, three, taker)) => {
            let due = exchange(rt, alloc, base, &inbox, two, three, taker);
            drop(inbox);
            due
        }
        None => false,
    }
}

#[test]
fn in_the_order_of_the_offers(rt: HostRuntime) {
    let alloc = rt.alloc();
    let base = problem_of(&rt, alloc, &no_way_out(0));
    assert!(rt; is_valid(&base));
    let due = is_in_order(&rt, alloc, &base);
    drop(base);
    assert!(rt; due);
}

// Whether an inbox of the first problem serves the second one.
fn serves_both<R: Wait + Abort>(rt: &R, alloc: Global, first: &Problem, second: &Problem) -> bool
    requires first { IsValidProblem first.now }
    requires second { IsValidProblem second.now }
{
    match of_two(rt, alloc, first) {
        Some((inbox, two, three, taker)) => {
            let due = renew(rt, alloc, first, second, &inbox, two, three, taker);
            drop(inbox);
            due
        }
        None => false,
    }
}

#[test]
fn serves_one_problem_after_another(rt: HostRuntime) {
    let alloc = rt.alloc();
    let first = problem_of(&rt, alloc, &no_way_out(0));
    let second = problem_of(&rt, alloc, &no_way_out(1));
    assert!(rt; is_valid(&first) && is_valid(&second));
    let due = serves_both(&rt, alloc, &first, &second);
    drop(second);
    drop(first);
    assert!(rt; due);
}
