ghost use Rattle.std.specs.Prelude.{◌≡◌, ◌<◌, ◌++◌, ◌∷◌, [], IfOk, List, OnOk, length};
ghost use Rattle.gp_derivation.specs.declared.log.LogEntry.{LogEntry};
ghost use Rattle.gp_search.specs.Inside.{IsTurning};
ghost use Rattle.gp_search.specs.Moves.{IsCopyOf, OffersEntry};

use crate::asked::Asked;
use crate::engine::Engine;
use crate::mail::Mail;
use gp_certificate::Certificate;
use gp_clause::Clause;
use gp_derivation::{LogEntry, SharedClause, fit_is_good, small_cone};
use std::alloc::{AllocError, Global};
use std::sync::Arc;

impl Engine {
    // Offers the last entry of the log, where it is fit to share.
    pub(crate) fn share<M: Mail>(&self, asked: &Asked<'_>, mail: &mut M) -> Result<(), AllocError>
        requires turning { IsTurning asked.now.problem.now asked.now.query.now self.now }
        requires last { self.now.learned < length self.now.log.items }
        requires mail { M.problem mail.old ≡ asked.now.problem.now }
        ensures problem { M.problem mail.new ≡ M.problem mail.old }
        ensures number { M.number mail.new ≡ M.number mail.old }
        ensures may_give { M.may_give mail.new ≡ M.may_give mail.old }
        ensures offers { (front : List LogEntry) (entry : LogEntry) → self.now.log.items ≡ front ++ entry ∷ [] → OnOk result (OffersEntry asked.now.problem.now self.now.log.items (length front) entry (M.told mail.old) (M.told mail.new)) }
    {
        fit_is_good();
        let alloc = *self.log.allocator();
        let place = self.log.len() - 1;
        let Some(certificate) = small_cone(alloc, asked.problem, self.log.as_slice(), place as u32)?
        else {
            return Ok(());
        };
        let clause = &self.log[place].step.clause;
        let shared = shared_clause(alloc, mail.sender(), clause, certificate)?;
        mail.offer(place as u32, shared)
    }
}

// A copy of a clause with its certificate, under the number of a sender.
fn shared_clause(
    alloc: Global,
    sender: u32,
    clause: &Clause,
    certificate: Certificate,
) -> Result<SharedClause, AllocError>
    ensures { IfOk result (IsCopyOf sender clause.now certificate) }
{
    Ok(SharedClause {
        sender,
        clause: clause.clone()?,
        certificate: Arc::new(alloc, certificate)?,
    })
}
