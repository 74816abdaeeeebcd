ghost use Rattle.std.specs.Prelude.{◌≡◌, ◌+◌, ◌<◌, ◌++◌, None, IfOk, MatchOption, OnOk};
ghost use Rattle.gp_tickets.specs.Drawn.{AreInOrder, HasDrawn, drawers_of};
ghost use Rattle.gp_tickets.specs.Hand.{WasTold, drew, told_none};
ghost use Rattle.gp_tickets.specs.Tickets.{IsDrawerOf, hand_of};
ghost use Rattle.gp_tickets.specs.declared.tickets.Tickets.{Tickets};

use gp_tickets::{Drawer, Drawn, Tickets};
use std::alloc::{AllocError, Global};

/// As `Tickets::draw`.
pub fn draw(tickets: &Tickets, drawer: &mut Drawer) -> Option<u64>
    requires { IsDrawerOf tickets.now drawer.old }
    ensures drawer { IsDrawerOf tickets.now drawer.new }
    ensures again { WasTold (hand_of drawer.old) → (result ≡ None) × (hand_of drawer.new ≡ hand_of drawer.old) }
    ensures first { (hand_of drawer.old).nones ≡ 0 → MatchOption result (hand_of drawer.new ≡ told_none (hand_of drawer.old)) (λ number. (number < (hand_of drawer.old).count) × (hand_of drawer.new ≡ drew (hand_of drawer.old) number)) }
{
    tickets.draw(drawer)
}

/// As `Drawn::take`.
pub fn take_drawn<T: Drop>(
    drawn: &mut Drawn<T>,
    tickets: &Tickets,
    other: Drawn<T>,
) -> Result<(), AllocError>
    requires own { HasDrawn tickets.now drawn.old }
    requires other { HasDrawn tickets.now other }
    ensures made { OnOk result (drawn.new.made.items ≡ drawn.old.made.items ++ other.made.items) }
    ensures drawn { OnOk result (HasDrawn tickets.now drawn.new) }
    ensures drawers { OnOk result (drawers_of drawn.new ≡ drawers_of drawn.old + drawers_of other) }
{
    drawn.take(tickets, other)
}

/// As `Drawn::in_order`.
pub fn in_order<T: Drop>(drawn: Drawn<T>, alloc: Global) -> Result<Vec<T>, AllocError>
    ensures { (tickets : Tickets) → HasDrawn tickets drawn → drawers_of drawn ≡ tickets.crew → IfOk result (λ values. AreInOrder tickets.count drawn.made.items values.items) }
{
    drawn.in_order(alloc)
}
