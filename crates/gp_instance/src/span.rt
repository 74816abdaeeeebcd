ghost use Rattle.std.specs.Prelude.{◌≡◌, false, IfSome};
ghost use Rattle.gp_instance.specs.Partners.{IsWithin};
ghost use Rattle.gp_window.specs.Ids.{is_less};

use gp_window::EventId;

/// The first and the last of some events, by thread and then index.
#[derive(Clone, Copy)]
pub struct Span {
    pub first: EventId,
    pub last: EventId,
}

/// The span of the events of a span, where there is one, and one more.
pub fn widened(span: Option<Span>, id: EventId) -> Span
    ensures here { IsWithin result id }
    ensures kept { IfSome span (λ before. (other : EventId) → IsWithin before other → IsWithin result other) }
{
    match span {
        Some(span) => Span {
            first: earlier(span.first, id),
            last: later(span.last, id),
        },
        None => Span {
            first: id,
            last: id,
        },
    }
}

/// The earlier of two events.
fn earlier(one: EventId, other: EventId) -> EventId
    ensures one { (id : EventId) → is_less id one ≡ false → is_less id result ≡ false }
    ensures other { (id : EventId) → is_less id other ≡ false → is_less id result ≡ false }
{
    if other.is_less(one) { other } else { one }
}

/// The later of two events.
fn later(one: EventId, other: EventId) -> EventId
    ensures one { (id : EventId) → is_less one id ≡ false → is_less result id ≡ false }
    ensures other { (id : EventId) → is_less other id ≡ false → is_less result id ≡ false }
{
    if one.is_less(other) { other } else { one }
}
