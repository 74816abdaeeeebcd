ghost use Rattle.gp_tickets.specs.Hand.{Draws, IsSound, IsWhole, joined, left_of, one_of, spent, unused};
ghost use Rattle.gp_tickets.specs.Rule.{Kept};
ghost use Rattle.std.specs.Prelude.{◌≡◌};

use crate::hand::Hand;
use atomic_table::{Join, Play, Split, TableRule};

// The word is the number that is drawn next, as long as one is left.
pub(crate) struct TicketRule;

// The key has how many numbers and how many drawers there are.
impl TableRule<u8, Hand, (u64, u64)> for TicketRule {
    ghost holds = { λ key state. Kept key.0 key.1 state.words state.views };

    ghost first = { λ key. unused key.0 key.1 key.1 };
}

// A number is drawn, or none is left.
pub(crate) struct Draw;

impl Play<u8, Hand> for Draw {
    ghost then = { λ step me found after. Draws me.0 found after.0 × (after.1 ≡ me.1) };
}

// A look, by which a drawer learns what the rule says of it.
pub(crate) struct Look;

impl Play<u8, Hand> for Look {
    ghost then = { λ step me found after. (after.0 ≡ me.0) × IsSound after.0 × IsWhole after.0 × (after.1 ≡ me.1) };
}

// A drawer that drew nothing hands over one of the drawers that it stands for.
pub(crate) struct HandOver;

impl Split<Hand> for HandOver {
    ghost left = { left_of };

    ghost right = { one_of };
}

// One drawer stands for both.
pub(crate) struct Both;

impl Join<Hand> for Both {
    ghost both = { joined };

    ghost spent = { spent };
}
