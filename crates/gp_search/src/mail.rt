ghost use Rattle.std.specs.Prelude.{◌≡◌, ℕ, Bool, IfSome, None, OnErr, OnOk, Option, false};
ghost use Rattle.gp_clause.specs.declared.problem.Problem.{Problem};
ghost use Rattle.gp_derivation.specs.Exchange.{IsGood};
ghost use Rattle.gp_search.specs.Mail.{Gives, MailForm, WasOffered};

use gp_clause::Problem;
use gp_derivation::SharedClause;
use std::alloc::AllocError;

/// What passes clauses between the searches of one problem: a search takes those that others learned, and offers its own.
pub trait Mail {
    /// The problem from which all clauses follow.
    ghost problem: { Self → Problem };

    /// The number under which clauses are offered.
    ghost number: { Self → ℕ };

    /// Whether it may give a clause at all.
    ghost may_give: { Self → Bool };

    /// What it gave and was offered, where it tells that.
    ghost told: { Self → Option MailForm };

    /// The number under which clauses are offered.
    fn sender(&self) -> u32
        ensures { result ≡ number self.now };

    /// The next clause, `None` where it finds none. Takes no memory.
    fn take(&mut self) -> Option<SharedClause>
        ensures problem { problem self.new ≡ problem self.old }
        ensures number { number self.new ≡ number self.old }
        ensures may_give { may_give self.new ≡ may_give self.old }
        ensures none { may_give self.old ≡ false → result ≡ None }
        ensures good { IfSome result (IsGood (problem self.old)) }
        ensures told { Gives (told self.old) (told self.new) result };

    /// Offers the clause of the entry at this place of the search's log. All memory is taken first, so that after want of it
    /// nothing was offered.
    fn offer(&mut self, entry: u32, clause: SharedClause) -> Result<(), AllocError>
        requires good { IsGood (problem self.old) clause }
        requires sender { clause.sender ≡ number self.old }
        ensures problem { problem self.new ≡ problem self.old }
        ensures number { number self.new ≡ number self.old }
        ensures may_give { may_give self.new ≡ may_give self.old }
        ensures ok { OnOk result (WasOffered (told self.old) (told self.new) entry clause.clause) }
        ensures err { OnErr result (told self.new ≡ told self.old) };
}

/// A mail that gives nothing, drops what it is offered, and tells neither.
#[derive(Drop)]
pub struct NoMail<'a> {
    problem: &'a Problem,
}

impl<'a> NoMail<'a> {
    /// The mail of a search over this problem that has no others beside it.
    pub fn new(problem: &'a Problem) -> NoMail<'a>
        ensures { result.problem.now ≡ problem.now }
    {
        NoMail { problem }
    }
}

impl<'a> Mail for NoMail<'a> {
    ghost use Rattle.std.specs.Prelude.{None, false};

    ghost problem = { λ mail. mail.problem.now };

    ghost number = { λ _. 0 };

    ghost may_give = { λ _. false };

    ghost told = { λ _. None };

    fn sender(&self) -> u32 {
        0
    }

    fn take(&mut self) -> Option<SharedClause> {
        None
    }

    fn offer(&mut self, _entry: u32, _clause: SharedClause) -> Result<(), AllocError> {
        Ok(())
    }
}
