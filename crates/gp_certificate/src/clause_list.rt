ghost use Rattle.std.specs.Prelude.{◌≡◌, ◌+◌, ◌-◌, ◌<◌, ◌≤◌, [], ◌∷◌, ◌++◌, length, take, drop, slice_index_or, cond, ◌==◌, OnOk, OnErr};
ghost use Rattle.gp_certificate.specs.ClauseList.{joined};

use gp_clause::Lit;
use std::alloc::{AllocError, Global};
use std::marker::Model;

// Lists of literals, one behind another in one vector.
#[derive(Drop)]
pub(crate) struct ClauseList {
    lits: Vec<Lit>,
    ends: Vec<usize>,
}

impl Model for ClauseList {
    ghost use Rattle.std.specs.Prelude.{vec_capacity};
    ghost use Rattle.gp_certificate.specs.ClauseList.{ListForm, pieces, IsSplit};

    ghost Value = { ListForm };

    ghost view = { λ l. record { lists = pieces 0 l.ends.items l.lits.items; room = vec_capacity l.lits; places = vec_capacity l.ends } };

    ghost invariant = { λ l. IsSplit l.lits.items l.ends.items };
}

impl ClauseList {
    // No list.
    pub(crate) fn new(alloc: Global) -> ClauseList
        ensures { result.lists ≡ [] }
    {
        ClauseList {
            lits: Vec::new(alloc),
            ends: Vec::new(alloc),
        }
    }

    // How many lists there are.
    pub(crate) fn len(&self) -> usize
        ensures { result ≡ length self.now.lists }
    {
        self.ends.len()
    }

    // The list with a number.
    pub(crate) fn get(&self, number: usize) -> &[Lit]
        requires { number < length self.now.lists }
        ensures { result.now ≡ slice_index_or self.now.lists number [] }
    {
        let start = start_of(&self.ends, number);
        let end = self.ends[number];
        part(&self.lits, start, end)
    }

    // Makes room for so many more literals and lists.
    pub(crate) fn reserve(&mut self, lits: usize, lists: usize) -> Result<(), AllocError>
        ensures same { self.new.lists ≡ self.old.lists }
        ensures room { OnOk result (length (joined self.new.lists) + lits ≤ self.new.room) }
        ensures places { OnOk result (length self.new.lists + lists ≤ self.new.places) }
        ensures more { self.old.room ≤ self.new.room }
        ensures wider { self.old.places ≤ self.new.places }
    {
        self.lits.reserve(lits)?;
        self.ends.reserve(lists)?;
        Ok(())
    }

    // Puts a list behind the others, for which there is room.
    pub(crate) fn push_reserved(&mut self, lits: &[Lit])
        requires room { length (joined self.old.lists) + length lits.now ≤ self.old.room }
        requires places { length self.old.lists < self.old.places }
        ensures lists { self.new.lists ≡ self.old.lists ++ lits.now ∷ [] }
        ensures room { self.old.room ≤ self.new.room }
        ensures places { self.new.places ≡ self.old.places }
    {
        let _ = self.lits.extend_from_slice(lits);
        self.ends.push_reserved(self.lits.len());
    }

    // Takes all lists away but so many first ones.
    pub(crate) fn truncate(&mut self, count: usize)
        ensures lists { self.new.lists ≡ take count self.old.lists }
        ensures room { self.new.room ≡ self.old.room }
        ensures places { self.new.places ≡ self.old.places }
    {
        if count >= self.ends.len() {
            return;
        }
        let start = start_of(&self.ends, count);
        self.ends.truncate(count);
        self.lits.truncate(start);
    }
}

// The literals from one place to another.
fn part(lits: &[Lit], start: usize, end: usize) -> &[Lit]
    requires order { start ≤ end }
    requires within { end ≤ length lits.now }
    ensures { result.now ≡ take (end - start) (drop start lits.now) }
{
    &lits[start..end]
}

// Where the list with a number begins.
fn start_of(ends: &[usize], number: usize) -> usize
    requires { number ≤ length ends.now }
    ensures { result ≡ cond (number == 0) 0 (slice_index_or ends.now (number - 1) 0) }
{
    if number == 0 {
        return 0;
    }
    ends[number - 1]
}
