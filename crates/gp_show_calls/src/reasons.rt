ghost use Rattle.std.specs.Prelude.{◌≡◌, ◌++◌, IfOk, OnOk};
ghost use Rattle.gp_text.specs.Spelling.{spelling};
ghost use Rattle.gp_cycle.specs.Cycle.{cycle_of};
ghost use Rattle.gp_cycle.specs.Forced.{forced};
ghost use Rattle.gp_place.specs.Places.{behind, named};
ghost use Rattle.gp_reason.specs.Reasons.{reason_of};
ghost use Rattle.gp_tell.specs.ReasonText.{reason_lines};
ghost use Rattle.gp_tell.specs.StoryText.{story_lines};

use gp_base::Row;
use gp_certificate::{Certificate, Step};
use gp_clause::Lit;
use gp_constraint::Encoded;
use gp_cycle::Order;
use gp_instance::Instance;
use gp_place::Places;
use gp_property::Property;
use gp_reason::Reason;
use gp_story::Story;
use gp_window::Window;
use std::alloc::{AllocError, Global};

/// As `gp_cycle::cycle_of`.
pub fn cycle_of(alloc: Global, orders: &[Order]) -> Result<Option<Row<Order>>, AllocError>
    ensures { IfOk result (λ cycle. cycle ≡ cycle_of orders.now) }
{
    gp_cycle::cycle_of(alloc, orders)
}

/// As `gp_cycle::forced`.
pub fn forced(
    alloc: Global,
    start: &[Lit],
    clauses: &[Row<Lit>],
) -> Result<Option<Row<Lit>>, AllocError>
    ensures { IfOk result (λ lits. lits ≡ forced start.now clauses.now) }
{
    gp_cycle::forced(alloc, start, clauses)
}

/// As `gp_reason::reason`.
pub fn reason(
    alloc: Global,
    encoded: &Encoded,
    property: &Property,
    instance: &Instance,
    shared: &[Step],
    certificate: &Certificate,
) -> Result<Reason, AllocError>
    ensures { IfOk result (λ reason. reason ≡ reason_of encoded.now property.now instance.now.events shared.now certificate.now) }
{
    gp_reason::reason(alloc, encoded, property, instance, shared, certificate)
}

/// As `gp_tell::put_reason`.
pub fn put_reason(
    text: &mut Vec<u8>,
    places: &Places,
    window: u32,
    reason: &Reason,
) -> Result<(), AllocError>
    ensures { OnOk result (text.new.items ≡ text.old.items ++ spelling (reason_lines (named places.now window) reason.now)) }
{
    gp_tell::put_reason(text, places, window, reason)
}

/// As `gp_tell::put_story`.
pub fn put_story(
    text: &mut Vec<u8>,
    window: &Window,
    places: &Places,
    story: &Story,
) -> Result<(), AllocError>
    ensures { OnOk result (text.new.items ≡ text.old.items ++ spelling (story_lines (behind places.now window.now.number) window.now story.now)) }
{
    gp_tell::put_story(text, window, places, story)
}
