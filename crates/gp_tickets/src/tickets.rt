ghost use Rattle.std.specs.Prelude.{◌≡◌, []};
ghost use Rattle.gp_tickets.specs.Hand.{IsSound, IsTold, IsWhole};

use crate::hand::Hand;
use crate::rule::TicketRule;
use atomic_table::{Seat, Table};
use std::alloc::Global;

/// The numbers below a count, each of which is drawn once, by any drawer of the crew. No draw waits for another.
#[derive(Drop)]
pub struct Tickets {
    pub(crate) table: Table<u8, Hand, (u64, u64), TicketRule, Global>,
    pub count: u64,
    pub crew: u64,
    ghost words: { table.shared.table_id.words ≡ 1 },
    ghost key: { (table.shared.key.0 ≡ count) × (table.shared.key.1 ≡ crew) },
}

/// Draws tickets in one thread.
#[derive(Drop)]
pub struct Drawer {
    pub(crate) seat: Seat<u8, Hand>,
    pub(crate) told: bool,
    ghost bare: { seat.me.1 ≡ [] },
    pub ghost sound: { IsSound seat.me.0 },
    pub ghost whole: { IsWhole seat.me.0 },
    ghost told_is: { IsTold told seat.me.0 },
}
