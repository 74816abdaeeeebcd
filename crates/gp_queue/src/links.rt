// A ring of links in two arrays: `next` leads forward, and `prev` back. Place 0 is both ends of the
// order, and number i has the place i + 1, so that no write has a case for the front or the back.
ghost use Rattle.std.specs.Prelude.{ℕ, ◌+◌, ◌<◌, ◌≤◌, ◌^◌, List, ◌∷◌, ◌++◌, length};
ghost use Rattle.gp_queue.specs.Order.{numbers_between};
ghost use Rattle.gp_queue.specs.Links.{IsRing, IsGap};

/// The place that stands before the front and behind the back.
pub(crate) const END: usize = 0;

/// Takes the number out of the ring, and keeps the order of the others.
fn unlink(next: &mut [u32], prev: &mut [u32], number: u32)
    requires { (count : ℕ) × (front : List ℕ) × (back : List ℕ) ×
        IsRing next.old prev.old count (front ++ number ∷ back) }
    ensures { (count : ℕ) (front back : List ℕ) → IsRing next.old prev.old count (front ++ number ∷ back) →
        IsRing next.new prev.new count (front ++ back) }
{
    let place = number as usize + 1;
    let before = prev[place];
    let after = next[place];
    next[before as usize] = after;
    prev[after as usize] = before;
}

/// Puts the number into the ring, right after the place `before`.
fn link(next: &mut [u32], prev: &mut [u32], before: u32, number: u32)
    requires fits { number + 1 < 2 ^ 32 }
    requires gap { (count : ℕ) × (front : List ℕ) × (back : List ℕ) ×
        IsGap next.old prev.old count before number front back }
    ensures { (count : ℕ) (front back : List ℕ) → IsGap next.old prev.old count before number front back →
        IsRing next.new prev.new count (front ++ number ∷ back) }
{
    let place = number + 1;
    let after = next[before as usize];
    next[before as usize] = place;
    prev[after as usize] = place;
    next[place as usize] = after;
    prev[place as usize] = before;
}

/// Moves the number to the front of the ring, and keeps the order of the others.
pub(crate) fn move_to_front(next: &mut [u32], prev: &mut [u32], number: u32)
    requires fits { number + 1 < 2 ^ 32 }
    requires ring { (count : ℕ) × (front : List ℕ) × (back : List ℕ) ×
        IsRing next.old prev.old count (front ++ number ∷ back) }
    ensures { (count : ℕ) (front back : List ℕ) → IsRing next.old prev.old count (front ++ number ∷ back) →
        IsRing next.new prev.new count (number ∷ (front ++ back)) }
{
    unlink(next, prev, number);
    link(next, prev, END as u32, number);
}

/// Puts the numbers from `first` up to below `n` behind the others, in rising order.
pub(crate) fn link_rest(next: &mut [u32], prev: &mut [u32], first: u32, n: u32)
    requires order { first ≤ n }
    requires room { n < length next.old }
    requires ring { (order : List ℕ) × IsRing next.old prev.old first order }
    ensures { (order : List ℕ) → IsRing next.old prev.old first order →
        IsRing next.new prev.new n (order ++ numbers_between first n) }
{
    for number in first..n {
        let last = prev[END];
        link(next, prev, last, number);
    }
}
