ghost use Rattle.std.specs.Prelude.{◌≡◌, IfOk};
ghost use Rattle.gp_view.specs.Answered.{form_of};
ghost use Rattle.gp_view.specs.Text.{is_of, reason_in, story_in};

use crate::answered::Answered;
use gp_base::Row;
use gp_certificate::Certificate;
use gp_instance::Instance;
use gp_place::Sighting;
use gp_reason::{Reason, reason};
use gp_report::Entry;
use gp_story::{Story, tell};
use gp_window::EventId;
use std::alloc::{AllocError, Global};

/// Whether an instance is the one that was seen.
pub fn is_of(answered: &Answered<'_>, sighting: &Sighting) -> bool
    ensures { result ≡ is_of (form_of answered.now) sighting.now }
{
    sighting.window == answered.encoded.window().number()
        && sighting.instance == answered.number
        && sighting.property.as_slice() == answered.property.name().as_bytes()
}

/// The story of a schedule, in which the events of the instance are marked.
pub fn story_in(
    alloc: Global,
    answered: &Answered<'_>,
    schedule: &[EventId],
) -> Result<Story, AllocError>
    ensures { IfOk result (λ story. story ≡ story_in (form_of answered.now) schedule.now) }
{
    let events = answered.entry.events.as_slice();
    tell(alloc, answered.encoded.window(), schedule, events)
}

/// Why the instance is impossible, by a certificate.
pub fn reason_in(
    alloc: Global,
    answered: &Answered<'_>,
    certificate: &Certificate,
) -> Result<Reason, AllocError>
    ensures { IfOk result (λ told. told ≡ reason_in (form_of answered.now) certificate.now) }
{
    let instance = instance_of(alloc, answered.entry)?;
    reason(
        alloc,
        answered.encoded,
        answered.property,
        &instance,
        answered.shared,
        certificate,
    )
}

/// An instance of an entry's events. A reason asks for no more of it, so that its property has any number.
fn instance_of(alloc: Global, entry: &Entry) -> Result<Instance, AllocError>
    ensures { IfOk result (λ instance. instance.events ≡ entry.now.events) }
{
    let events = Vec::from_slice(alloc, entry.events.as_slice())?;
    Ok(Instance {
        property: 0,
        events: Row::from_vec(events),
    })
}
