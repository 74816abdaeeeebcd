ghost use Rattle.std.specs.Prelude.{◌≡◌, [], ◌∷◌, MatchOption};
ghost use Rattle.gp_certificate.specs.Certificate.{clauses_of};
ghost use Rattle.gp_derivation.specs.Room.{HasPlace, Leaves, clauses_by, whole_room};

use crate::log::{LogEntry, Origin};
use gp_certificate::Step;
use gp_clause::{Clause, names_below};

// How many steps a small certificate may have.
const MOST_STEPS: usize = 64;

// How many literals its clauses may have.
const MOST_LITERALS: usize = 2048;

// How many steps, and literals in their clauses, a small certificate may still have.
#[derive(Clone, Copy)]
pub(crate) struct Room {
    steps: usize,
    literals: usize,
}

impl Room {
    // The room of a certificate without steps.
    pub(crate) fn whole() -> Room
        ensures { result ≡ whole_room }
    {
        Room {
            steps: MOST_STEPS,
            literals: MOST_LITERALS,
        }
    }

    // What a step with a clause leaves, where there is place for it and its variables are below the number.
    pub(crate) fn after_clause(self, variables: usize, clause: &Clause) -> Option<Room>
        ensures { MatchOption result (HasPlace variables self (clause.now ∷ []) → ⊥) (Leaves variables self (clause.now ∷ [])) }
    {
        let steps = self.steps.checked_sub(1)?;
        let literals = self.literals.checked_sub(clause.len())?;
        if !names_below(clause.lits(), variables) {
            return None;
        }
        Some(Room { steps, literals })
    }

    // What some steps leave.
    pub(crate) fn after_steps(self, variables: usize, steps: &[Step]) -> Option<Room>
        ensures { MatchOption result (HasPlace variables self (clauses_of steps.now) → ⊥) (Leaves variables self (clauses_of steps.now)) }
    {
        let mut room = self;
        for step in steps {
            room = room.after_clause(variables, &step.clause)?;
        }
        Some(room)
    }

    // What the steps leave that an entry stands for.
    pub(crate) fn after_entry(self, variables: usize, entry: &LogEntry) -> Option<Room>
        ensures { MatchOption result (HasPlace variables self (clauses_by entry.now.step entry.now.origin) → ⊥) (Leaves variables self (clauses_by entry.now.step entry.now.origin)) }
    {
        match &entry.origin {
            Origin::Learned => self.after_clause(variables, &entry.step.clause),
            Origin::Taken { certificate, .. } => {
                self.after_steps(variables, certificate.steps.as_slice())
            }
        }
    }
}
