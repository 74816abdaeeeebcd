ghost use Rattle.std.specs.Prelude.{◌≡◌, true, false};
ghost use Rattle.gp_constraint.specs.PointIds.{id_at};
ghost use Rattle.gp_reason.specs.Facts.{fact_by, fact_of};

use gp_clause::Lit;
use gp_constraint::{Point, Symbol};
use gp_window::EventId;

/// What a literal says of the events of a window.
#[derive(Clone, Copy)]
pub enum Fact {
    /// The event is executed.
    Executed(EventId),
    NotExecuted(EventId),
    /// The first event is before the second.
    Before(EventId, EventId),
    /// The read, which stands first, sees the value of the write.
    Sees(EventId, EventId),
    NotSees(EventId, EventId),
    /// The read sees the value with which the window begins.
    SeesStart(EventId),
    NotSeesStart(EventId),
    /// The section that the first event begins comes before the one that the second begins.
    SectionBefore(EventId, EventId),
    /// The write is the last to its variable, but for writes of the same value.
    Last(EventId),
    NotLast(EventId),
    /// The wake, which stands first, takes the signal of the second event.
    Takes(EventId, EventId),
    NotTakes(EventId, EventId),
    /// The first event is at most so many places behind the second.
    Within(EventId, EventId, u32),
    /// The first event is more than so many places behind the second.
    Beyond(EventId, EventId, u32),
    /// The variable of this number, which no event has a name for, is true or false.
    Unnamed(u32, bool),
}

/// What a literal says, where each variable stands for the symbol at its place.
pub(crate) fn fact_of(names: &[Symbol], points: &[Point], lit: Lit) -> Fact
    ensures { result ≡ fact_of names.now (id_at points.now) lit }
{
    match names.get(lit.variable as usize) {
        Some(symbol) => fact_by(points, *symbol, lit.positive),
        None => Fact::Unnamed(lit.variable, lit.positive),
    }
}

fn fact_by(points: &[Point], symbol: Symbol, positive: bool) -> Fact
    ensures { result ≡ fact_by (id_at points.now) symbol positive }
{
    if positive {
        fact_where(points, symbol)
    } else {
        fact_unless(points, symbol)
    }
}

/// What a symbol says of the events of its points.
fn fact_where(points: &[Point], symbol: Symbol) -> Fact
    ensures { result ≡ fact_by (id_at points.now) symbol true }
{
    match symbol {
        Symbol::Executed(p) => Fact::Executed(id_at(points, p)),
        Symbol::Order(a, b) => Fact::Before(id_at(points, a), id_at(points, b)),
        Symbol::Choice(read, write) => Fact::Sees(id_at(points, read), id_at(points, write)),
        Symbol::StartChoice(read) => Fact::SeesStart(id_at(points, read)),
        Symbol::First(a, b) => Fact::SectionBefore(id_at(points, a), id_at(points, b)),
        Symbol::Last(write) => Fact::Last(id_at(points, write)),
        Symbol::Signal(wake, sent) => Fact::Takes(id_at(points, wake), id_at(points, sent)),
        Symbol::Span(a, b, width) => Fact::Within(id_at(points, a), id_at(points, b), width),
    }
}

/// What the negation of a symbol says of them: of an order, and of two sections, the other order.
fn fact_unless(points: &[Point], symbol: Symbol) -> Fact
    ensures { result ≡ fact_by (id_at points.now) symbol false }
{
    match symbol {
        Symbol::Executed(p) => Fact::NotExecuted(id_at(points, p)),
        Symbol::Order(a, b) => Fact::Before(id_at(points, b), id_at(points, a)),
        Symbol::Choice(read, write) => Fact::NotSees(id_at(points, read), id_at(points, write)),
        Symbol::StartChoice(read) => Fact::NotSeesStart(id_at(points, read)),
        Symbol::First(a, b) => Fact::SectionBefore(id_at(points, b), id_at(points, a)),
        Symbol::Last(write) => Fact::NotLast(id_at(points, write)),
        Symbol::Signal(wake, sent) => Fact::NotTakes(id_at(points, wake), id_at(points, sent)),
        Symbol::Span(a, b, width) => Fact::Beyond(id_at(points, a), id_at(points, b), width),
    }
}

/// The event of a point; of a number that no point has, one that is nowhere.
fn id_at(points: &[Point], number: u32) -> EventId
    ensures { result ≡ id_at points.now number }
{
    match points.get(number as usize) {
        Some(point) => point.id,
        None => EventId {
            thread: 0,
            index: 0,
        },
    }
}
