ghost use Rattle.gp_workers.specs.Mail.{GivesFew, TellsOrGivesNone};

use crate::desk::Desk;
use gp_derivation::SharedClause;
use gp_search::{Mail, NoMail};
use std::alloc::AllocError;
use std::marker::{Brand, Model, PhantomData};
use std::sync::Wait;

// A mail that gives so few clauses that the log of a worker has room for them.
pub(crate) trait BoundedMail: Mail {
    // What it gave so far is few; and it tells what it gives.
    fn gives_few(&self)
        ensures few { GivesFew (Self.told self.now) }
        ensures tells { TellsOrGivesNone (Self.may_give self.now) (Self.told self.now) };
}

impl<'a> BoundedMail for NoMail<'a> {
    fn gives_few(&self) {}
}

// The inboxes of the workers, which are the same as long as they work.
pub(crate) trait Naming {
    ghost use Rattle.std.specs.Prelude.{List};
    ghost use Rattle.gp_inbox.specs.declared.inbox.Inbox.{Inbox};

    ghost inboxes: { List Inbox };
}

impl Naming for Brand {
    ghost use Rattle.std.specs.Prelude.{[]};

    ghost inboxes = { [] };
}

// The mail of a worker among others.
#[derive(Drop)]
pub(crate) struct WorkerMail<'a, R: Wait, N: Naming> {
    rt: &'a R,
    desk: Desk<'a>,
    naming: PhantomData<N>,
}

impl<'a, R: Wait, N: Naming> Model for WorkerMail<'a, R, N> {
    ghost use Rattle.std.specs.Prelude.{◌≡◌};
    ghost use Rattle.gp_workers.specs.declared.desk.Desk.{Desk};

    ghost Value = { Desk };

    ghost use Rattle.gp_workers.specs.Desk.{IsDesk};

    ghost view = { λ mail. mail.desk };

    ghost invariant = { λ mail. IsDesk mail.desk × (mail.desk.inboxes.now ≡ N.inboxes) };
}

impl<'a, R: Wait, N: Naming> WorkerMail<'a, R, N> {
    ghost use Rattle.std.specs.Prelude.{◌≡◌};
    ghost use Rattle.gp_workers.specs.Desk.{IsDesk};

    pub(crate) fn new(rt: &'a R, desk: Desk<'a>) -> WorkerMail<'a, R, N>
        requires desk { IsDesk desk }
        requires named { desk.inboxes.now ≡ N.inboxes }
        ensures { result ≡ desk.entry }
    {
        WorkerMail {
            rt,
            desk,
            naming: PhantomData,
        }
    }

    pub(crate) fn into_desk(self) -> Desk<'a>
        ensures same { result ≡ self.entry }
        ensures desk { IsDesk result }
        ensures named { result.inboxes.now ≡ N.inboxes }
    {
        let WorkerMail {
            rt: _,
            desk,
            naming: _,
        } = self;
        desk
    }
}

impl<'a, R: Wait, N: Naming> Mail for WorkerMail<'a, R, N> {
    ghost use Rattle.std.specs.Prelude.{◌+◌, Some, true};
    ghost use Rattle.gp_workers.specs.Desk.{told_by};

    ghost problem = { λ mail. mail.problem.now };

    ghost number = { λ mail. mail.place + 1 };

    ghost may_give = { λ _. true };

    ghost told = { λ mail. Some (told_by mail) };

    fn sender(&self) -> u32 {
        self.desk.place as u32 + 1
    }

    fn take(&mut self) -> Option<SharedClause> {
        self.desk.take(self.rt)
    }

    fn offer(&mut self, entry: u32, clause: SharedClause) -> Result<(), AllocError> {
        self.desk.offer(self.rt, entry, clause)
    }
}

impl<'a, R: Wait, N: Naming> BoundedMail for WorkerMail<'a, R, N> {
    fn gives_few(&self) {
        let _desk = &self.desk;
    }
}
