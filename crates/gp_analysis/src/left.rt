ghost use Rattle.std.specs.Prelude.{◌≡◌, ◌≤◌, [], ◌∷◌, length, MatchOption};

use gp_base::Row;
use std::marker::Model;
use std::vec::IntoIter;

// What is left of a list that is taken in order.
#[derive(Drop)]
pub(crate) struct Left<T> {
    items: IntoIter<T>,
}

impl<T> Model for Left<T> {
    ghost use Rattle.std.specs.Prelude.{◌≡◌, List, length};
    ghost use Rattle.std.specs.Vec.Iter.{into_iter_items, into_iter_len};

    ghost Value = { List T };

    ghost view = { λ a. into_iter_items a.items };

    ghost invariant = { λ a. into_iter_len a.items ≡ length (into_iter_items a.items) };
}

impl<T: Drop> Left<T> {
    // All of these. Takes no memory.
    pub(crate) fn of(items: Row<T>) -> Left<T>
        ensures { result ≡ items }
    {
        Left {
            items: items.into_vec().into_iter(),
        }
    }

    // Takes the first of those that are left.
    pub(crate) fn take_first(&mut self) -> T
        requires { 1 ≤ length self.old }
        ensures { self.old ≡ result ∷ self.new }
    {
        self.items.next().unwrap()
    }

    // The next of those that are left.
    pub(crate) fn next(&mut self) -> Option<T>
        ensures { MatchOption result ((self.old ≡ []) × (self.new ≡ [])) (λ item. self.old ≡ item ∷ self.new) }
    {
        self.items.next()
    }
}
