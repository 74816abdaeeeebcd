ghost use Rattle.std.specs.Prelude.{◌≡◌, [], IfOk, length};
ghost use Rattle.gp_constraint.specs.Base.{base_of};
ghost use Rattle.gp_reason.specs.Reasons.{assumed_of, reason_by, reason_of, steps_from};
ghost use Rattle.gp_reason.specs.Told.{told_of};

use crate::fact::Fact;
use crate::marking::marks;
use crate::reasons::{Reason, ReasonStep};
use crate::steps::Draft;
use crate::vocabulary::Vocabulary;
use gp_base::Row;
use gp_certificate::{Certificate, Step};
use gp_constraint::Encoded;
use gp_instance::Instance;
use gp_property::Property;
use std::alloc::{AllocError, Global};

/// Why an instance is impossible in the window that is encoded: the last step of a certificate over shared steps, and those
/// on which it rests, in facts. What is no certificate of the instance gives a reason too, which shows nothing.
///
/// It takes the time of making the window's clauses, and of the steps with the clauses that they cite; where a step has no hints, that
/// of the steps before it; and where what a step denies and cites forces orders of events, at least the square of their number.
pub fn reason(
    alloc: Global,
    encoded: &Encoded,
    property: &Property,
    instance: &Instance,
    shared: &[Step],
    certificate: &Certificate,
) -> Result<Reason, AllocError>
    ensures { IfOk result (λ reason. reason ≡ reason_of encoded.now property.now instance.now.events shared.now certificate.now) }
{
    let own = certificate.steps.as_slice();
    let vocabulary = Vocabulary::new(alloc, encoded, property, instance, shared, own)?;
    reason_by(alloc, &vocabulary, shared, own)
}

fn reason_by(
    alloc: Global,
    vocabulary: &Vocabulary,
    shared: &[Step],
    own: &[Step],
) -> Result<Reason, AllocError>
    ensures { IfOk result (λ reason. reason ≡ reason_by vocabulary.now.window vocabulary.now.names vocabulary.now.clauses shared.now own.now) }
{
    Ok(Reason {
        assumed: assumed(alloc, vocabulary, own)?,
        steps: steps(alloc, vocabulary, shared, own)?,
    })
}

/// What the clause of the last step denies.
fn assumed(alloc: Global, vocabulary: &Vocabulary, own: &[Step]) -> Result<Row<Fact>, AllocError>
    ensures { IfOk result (λ facts. facts ≡ assumed_of vocabulary.now.window vocabulary.now.names own.now) }
{
    match own.last() {
        Some(last) => vocabulary.denied(alloc, last.clause.lits()),
        None => Ok(Row::new(alloc)),
    }
}

/// The steps that are told.
fn steps(
    alloc: Global,
    vocabulary: &Vocabulary,
    shared: &[Step],
    own: &[Step],
) -> Result<Row<ReasonStep>, AllocError>
    ensures { IfOk result (λ steps. steps ≡ steps_from vocabulary.now.window vocabulary.now.names vocabulary.now.clauses [] (told_of (length (base_of vocabulary.now.window).clauses) shared.now own.now)) }
{
    let base = vocabulary.clause_count();
    let marks = marks(alloc, base, shared, own)?;
    let draft = Draft::new(alloc, base)?;
    let behind = draft.tell(alloc, vocabulary, marks.as_slice(), shared)?;
    let whole = behind.tell(alloc, vocabulary, marks.as_slice(), own)?;
    Ok(whole.into_steps())
}
