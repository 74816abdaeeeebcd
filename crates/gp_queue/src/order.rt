ghost use Rattle.std.specs.Prelude.{◌≡◌, ℕ, ◌+◌, ◌<◌, List, ◌∷◌, ◌++◌, length, slice_get, IfOk, IfSome, OnOk, OnErr, max};
ghost use Rattle.gp_queue.specs.Order.{numbers_between, IsOrder, moved_to_front, next_of};

use crate::links::{END, link_rest, move_to_front};
use std::alloc::{AllocError, Global};
use std::marker::Model;

/// The numbers 0..n in an order. Contracts see that order, front first, as a list.
#[derive(Drop)]
pub struct LinkQueue {
    next: Vec<u32>,
    prev: Vec<u32>,
}

impl Model for LinkQueue {
    ghost use Rattle.std.specs.Prelude.{ℕ, List};
    ghost use Rattle.gp_queue.specs.Links.{order_of, IsQueue};

    ghost Value = { List ℕ };

    ghost view = { λ q. order_of q.next.items };

    ghost invariant = { λ q. IsQueue q.next.items q.prev.items (order_of q.next.items) };
}

impl LinkQueue {
    /// The numbers 0, 1, 2 and so on, `n` of them.
    pub fn new(alloc: Global, n: u32) -> Result<LinkQueue, AllocError>
        ensures { IfOk result (λ queue. queue ≡ numbers_between 0 n) }
    {
        let mut queue = LinkQueue {
            next: vec![in alloc; 0; 1]?,
            prev: vec![in alloc; 0; 1]?,
        };
        queue.grow(n)?;
        Ok(queue)
    }

    /// How many numbers there are.
    pub fn len(&self) -> u32
        ensures length { result ≡ length self.now }
        ensures numbers { IsOrder self.now }
    {
        (self.next.len() - 1) as u32
    }

    /// The number at the front.
    pub fn first(&self) -> Option<u32>
        ensures first { result ≡ slice_get self.now 0 }
        ensures below { IfSome result (λ i. i < length self.now) }
    {
        self.next[END].checked_sub(1)
    }

    /// The number right after `i`, towards the back.
    pub fn after(&self, i: u32) -> Option<u32>
        requires { i < length self.now }
        ensures after { result ≡ next_of i self.now }
        ensures split { (front back : List ℕ) → self.now ≡ front ++ i ∷ back → result ≡ slice_get back 0 }
        ensures below { IfSome result (λ j. j < length self.now) }
    {
        self.next[i as usize + 1].checked_sub(1)
    }

    /// Moves `i` to the front.
    pub fn to_front(&mut self, i: u32)
        requires { i < length self.old }
        ensures moved { self.new ≡ moved_to_front i self.old }
        ensures len { length self.new ≡ length self.old }
    {
        move_to_front(&mut self.next, &mut self.prev, i);
    }

    /// Puts the numbers from the length up to below `n` behind the others, in rising order. With no
    /// more than `len` numbers asked for, nothing changes.
    pub fn grow(&mut self, n: u32) -> Result<(), AllocError>
        ensures grown { OnOk result (self.new ≡ self.old ++ numbers_between (length self.old) n) }
        ensures len { OnOk result (length self.new ≡ max (length self.old) n) }
        ensures unchanged { OnErr result (self.new ≡ self.old) }
    {
        let len = self.len();
        if n <= len {
            return Ok(());
        }
        let places = n as usize + 1;
        self.prev.reserve((n - len) as usize)?;
        self.next.resize(places, 0)?;
        self.prev.resize(places, 0)?;
        link_rest(&mut self.next, &mut self.prev, len, n);
        Ok(())
    }
}
