ghost use Rattle.std.specs.Prelude.{◌≡◌, ◌-◌, IfOk, OnOk, filter, find, length, not, reverse, slice_get};
ghost use Rattle.std.specs.List.{list_any};
ghost use Rattle.gp_cycle.specs.Cycle.{leads};
ghost use Rattle.gp_cycle.specs.Levels.{chain_through, first_levels, is_next, is_over, with_level};

use crate::order::Order;
use gp_base::Row;
use std::alloc::{AllocError, Global};

/// Orders by how many further ones the shortest chain from them to a goal has, the nearest first, and those that are left.
#[derive(Drop)]
pub(crate) struct Levels {
    goal: Order,
    levels: Row<Row<Order>>,
    rest: Row<Order>,
}

impl Levels {
    /// No level yet, and all orders are left.
    pub(crate) fn new(alloc: Global, orders: &[Order], goal: Order) -> Result<Levels, AllocError>
        ensures { IfOk result (λ levels. levels ≡ first_levels orders.now goal) }
    {
        Ok(Levels {
            goal,
            levels: Row::new(alloc),
            rest: Row::from_vec(orders.to_vec(alloc)?),
        })
    }

    /// Adds one level more: those that are left and lead to one of the farthest.
    pub(crate) fn add_level(&mut self, alloc: Global) -> Result<(), AllocError>
        ensures { OnOk result (self.new ≡ with_level self.old) }
    {
        let level = self.nearer(alloc)?;
        let rest = self.farther(alloc)?;
        self.levels.push(level)?;
        self.rest = rest;
        Ok(())
    }

    /// Whether the farthest level is empty.
    pub(crate) fn is_over(&self) -> bool
        ensures { result ≡ is_over (slice_get self.now.levels (length self.now.levels - 1)) }
    {
        match self.levels.as_slice().last() {
            Some(level) => level.is_empty(),
            None => false,
        }
    }

    /// The chain from an order to the goal by the first order of each level to which the one before leads, where there is one.
    pub(crate) fn chain(
        &self,
        alloc: Global,
        order: Order,
    ) -> Result<Option<Row<Order>>, AllocError>
        ensures { IfOk result (λ chain. chain ≡ chain_through self.now.goal (reverse self.now.levels) order) }
    {
        chain_through(alloc, self.goal, self.levels.as_slice(), order)
    }

    fn nearer(&self, alloc: Global) -> Result<Row<Order>, AllocError>
        ensures { IfOk result (λ level. level ≡ filter (is_next self.now) self.now.rest) }
    {
        let mut level = Row::new(alloc);
        for order in self.rest.as_slice() {
            if self.is_next(*order) {
                level.push(*order)?;
            }
        }
        Ok(level)
    }

    fn farther(&self, alloc: Global) -> Result<Row<Order>, AllocError>
        ensures { IfOk result (λ rest. rest ≡ filter (λ order. not (is_next self.now order)) self.now.rest) }
    {
        let mut rest = Row::new(alloc);
        for order in self.rest.as_slice() {
            if !self.is_next(*order) {
                rest.push(*order)?;
            }
        }
        Ok(rest)
    }

    /// Whether an order leads to one of the farthest level, or where there is no level to the goal.
    fn is_next(&self, order: Order) -> bool
        ensures { result ≡ is_next self.now order }
    {
        match self.levels.as_slice().last() {
            Some(level) => leads_to_one(order, level.as_slice()),
            None => order.leads(self.goal),
        }
    }
}

fn chain_through(
    alloc: Global,
    goal: Order,
    levels: &[Row<Order>],
    order: Order,
) -> Result<Option<Row<Order>>, AllocError>
    ensures { IfOk result (λ chain. chain ≡ chain_through goal (reverse levels.now) order) }
{
    let mut chain = Row::new(alloc);
    let mut last = order;
    for place in (0..levels.len()).rev() {
        let Some(next) = first_led(last, levels[place].as_slice()) else {
            return Ok(None);
        };
        chain.push(next)?;
        last = next;
    }
    if !last.leads(goal) {
        return Ok(None);
    }
    Ok(Some(chain))
}

/// The first of a level to which an order leads.
fn first_led(order: Order, level: &[Order]) -> Option<Order>
    ensures { result ≡ find (leads order) level.now }
{
    level.iter().copied().find(|next| order.leads(*next))
}

fn leads_to_one(order: Order, level: &[Order]) -> bool
    ensures { result ≡ list_any (leads order) level.now }
{
    level.iter().any(|next| order.leads(*next))
}
