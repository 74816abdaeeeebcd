ghost use Rattle.std.specs.Prelude.{◌≡◌, ◌+◌, ◌++◌, IfOk, map, OnOk};
ghost use Rattle.gp_tickets.specs.declared.tickets.Tickets.{Tickets};
ghost use Rattle.gp_tickets.specs.Drawn.{AreInOrder, drawers_of, HasDrawn};

use crate::tickets::{Drawer, Tickets};
use std::alloc::{AllocError, Global};

/// What was made of a number that was drawn.
#[derive(Drop)]
pub struct Made<T> {
    pub number: u64,
    pub value: T,
}

/// A drawer, and what was made of each number that it drew, in the order in which it drew them.
#[derive(Drop)]
pub struct Drawn<T> {
    pub made: Vec<Made<T>>,
    pub drawer: Drawer,
}

impl<T: Drop> Drawn<T> {
    /// What another drawer drew goes to the rest, and one drawer stands for both.
    pub fn take(&mut self, tickets: &Tickets, other: Drawn<T>) -> Result<(), AllocError>
        requires own { HasDrawn tickets.now self.old }
        requires other { HasDrawn tickets.now other }
        ensures made { OnOk result (self.new.made.items ≡ self.old.made.items ++ other.made.items) }
        ensures drawn { OnOk result (HasDrawn tickets.now self.new) }
        ensures drawers { OnOk result (drawers_of self.new ≡ drawers_of self.old + drawers_of other) }
    {
        let Drawn { mut made, drawer } = other;
        self.made.append(&mut made)?;
        tickets.rejoin(&mut self.drawer, drawer);
        Ok(())
    }

    /// What was made, in the order of the numbers, where the whole crew drew.
    pub fn in_order(self, alloc: Global) -> Result<Vec<T>, AllocError>
        ensures { (tickets : Tickets) → HasDrawn tickets self → drawers_of self ≡ tickets.crew → IfOk result (λ values. AreInOrder tickets.count self.made.items values.items) }
    {
        let Drawn { mut made, drawer } = self;
        drop(drawer);
        made.sort_unstable_by_key(|made| made.number);
        let values = values_of(alloc, made)?;
        Ok(values)
    }
}

// The values alone.
fn values_of<T: Drop>(alloc: Global, made: Vec<Made<T>>) -> Result<Vec<T>, AllocError>
    ensures { IfOk result (λ values. values.items ≡ map (λ made. made.value) made.items) }
{
    made.into_iter().map(|made| made.value).collect(alloc)
}
