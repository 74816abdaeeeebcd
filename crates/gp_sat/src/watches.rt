ghost use Rattle.std.specs.Prelude.{◌≡◌, ◌+◌, ◌-◌, ◌*◌, ◌<◌, ◌≤◌, ◌^◌, length, slice_set, true, false, replicate, min, [], ◌∷◌, ◌++◌, slice_index, if◌then◌else◌, vec_len, vec_capacity, IfOk, OnOk};
ghost use Rattle.gp_sat.specs.Watching.{ArePartners, code, link_at, next_at, watch_at, no_slot};
ghost use Rattle.std.specs.List.{swap_remove};
ghost use Rattle.gp_sat.specs.Linked.{passed, adopted, IsBlank};
ghost use Rattle.gp_sat.specs.WatchesForm.{opened};

use gp_clause::Lit;
use std::alloc::{AllocError, Global};
use std::marker::Model;

/// A slot of a clause in eight bytes: the literal that it watches, as twice its variable and one more where it is positive,
/// and the next slot that watches the same, as one more than its number, or 0 for none.
#[derive(Clone, Copy, PartialEq, Eq, Drop)]
pub struct Packed {
    pub lit: u32,
    pub next: u32,
}

const NO_SLOT: Packed = Packed { lit: 0, next: 0 };

/// The slots by the literals that they watch. The clause of a number has the slots 2 * number and 2 * number + 1. Lists and
/// slots are numbered by 32 bits, so that a slot stays small: some 2^31 variables or clauses are want of memory.
#[derive(Drop)]
pub struct Watches {
    heads: Vec<u32>,
    slots: Vec<Packed>,
    // The clauses below this number are linked.
    linked: usize,
    // The place of the trail that is looked at next.
    cursor: usize,
    // The clauses of fewer than two literals, and how many of them were looked at.
    shorts: Vec<usize>,
    looked: usize,
}

impl Model for Watches {
    ghost use Rattle.std.specs.Vec.{vec_capacity};
    ghost use Rattle.std.specs.Prelude.{length, map};
    ghost use Rattle.gp_sat.specs.WatchesForm.{WatchesForm, FitNumbers, opened};

    ghost Value = { WatchesForm };

    ghost view = { λ w. record {
      heads = w.heads.items;
      slots = map opened w.slots.items;
      linked = w.linked;
      cursor = w.cursor;
      shorts = w.shorts.items;
      looked = w.looked;
      heads_room = vec_capacity w.heads;
      slots_room = vec_capacity w.slots;
      shorts_room = vec_capacity w.shorts;
    } };

    ghost invariant = { λ w. FitNumbers (length w.heads.items) (length w.slots.items) };
}

impl Watches {
    // Takes the first slot of the work list.
    pub(crate) fn take(&mut self) -> usize
        requires some { 0 < link_at self.old.heads 0 }
        requires within { link_at self.old.heads 0 ≤ length self.old.slots }
        ensures first { link_at self.old.heads 0 ≡ result + 1 }
        ensures taken { self.new ≡ record self.old { heads = slice_set self.old.heads 0 (next_at self.old.slots result) } }
    {
        let slot = self.heads[0] as usize - 1;
        self.heads[0] = self.slots[slot].next;
        slot
    }

    // Links a slot to the front of the list of a literal.
    pub(crate) fn link(&mut self, slot: usize, lit: Lit)
        requires within { slot < length self.old.slots }
        requires named { code lit < length self.old.heads }
        ensures { self.new ≡ record self.old {
          heads = slice_set self.old.heads (code lit) (slot + 1);
          slots = slice_set self.old.slots slot (record { lit = lit; next = link_at self.old.heads (code lit) });
        } }
    {
        let place = code_of(lit);
        let next = self.heads[place];
        self.slots[slot] = Packed {
            lit: (place - 2) as u32,
            next,
        };
        self.heads[place] = slot as u32 + 1;
    }

    // The watches of no clause.
    pub(crate) fn new(alloc: Global, variables: u32) -> Result<Watches, AllocError>
        ensures { IfOk result (λ w. IsBlank variables w) }
    {
        let lists = 2 * (variables as usize) + 2;
        check_count(lists)?;
        let heads = vec![in alloc; 0u32; lists]?;
        Ok(Watches {
            heads,
            slots: Vec::new(alloc),
            linked: 0,
            cursor: 0,
            shorts: Vec::new(alloc),
            looked: 0,
        })
    }

    // Makes room for the lists of more variables.
    pub(crate) fn reserve_lists(&mut self, size: usize) -> Result<(), AllocError>
        requires { length self.old.heads ≤ size }
        ensures same { self.new ≡ record self.old { heads_room = self.new.heads_room } }
        ensures room { OnOk result (size ≤ self.new.heads_room) }
        ensures few { OnOk result (size < 2 ^ 32) }
    {
        check_count(size)?;
        let added = size - self.heads.len();
        self.heads.reserve(added)
    }

    // Adds the lists of more variables, for which there is room.
    pub(crate) fn widen(&mut self, size: usize)
        requires more { length self.old.heads ≤ size }
        requires room { size ≤ self.old.heads_room }
        requires few { size < 2 ^ 32 }
        ensures { self.new ≡ record self.old { heads = self.old.heads ++ replicate (size - length self.old.heads) 0 } }
    {
        let added = size - self.heads.len();
        add_heads(&mut self.heads, added);
    }

    // Makes room for one more clause.
    pub(crate) fn reserve_clause(&mut self) -> Result<(), AllocError>
        ensures same { self.new ≡ record self.old { slots_room = self.new.slots_room; shorts_room = self.new.shorts_room } }
        ensures slots { OnOk result (length self.old.slots + 2 ≤ self.new.slots_room) }
        ensures shorts { OnOk result (length self.old.shorts + 1 ≤ self.new.shorts_room) }
        ensures few { OnOk result (length self.old.slots + 2 < 2 ^ 32) }
    {
        check_count(self.slots.len() + 2)?;
        self.slots.reserve(2)?;
        self.shorts.reserve(1)?;
        Ok(())
    }

    // Adds the two slots of one more clause, and where it has fewer than two literals, lists it. There is room.
    pub(crate) fn add_clause(&mut self, number: usize, short: bool)
        requires slots { length self.old.slots + 2 ≤ self.old.slots_room }
        requires shorts { length self.old.shorts + 1 ≤ self.old.shorts_room }
        requires few { length self.old.slots + 2 < 2 ^ 32 }
        ensures { self.new ≡ record self.old {
          slots = (self.old.slots ++ no_slot ∷ []) ++ no_slot ∷ [];
          shorts = self.old.shorts ++ (if short then number ∷ [] else []);
        } }
    {
        self.slots.push_reserved(NO_SLOT);
        self.slots.push_reserved(NO_SLOT);
        if short {
            self.shorts.push_reserved(number);
        }
    }

    // The next short clause to look at.
    pub(crate) fn next_short(&self) -> usize
        requires { self.now.looked < length self.now.shorts }
        ensures { result ≡ slice_index self.now.shorts self.now.looked }
    {
        self.shorts[self.looked]
    }

    // Drops the next short clause.
    pub(crate) fn drop_short(&mut self)
        requires { self.old.looked < length self.old.shorts }
        ensures { self.new ≡ record self.old { shorts = swap_remove self.old.shorts self.old.looked (slice_index self.old.shorts self.old.looked) } }
    {
        self.shorts.swap_remove(self.looked);
    }

    // Passes by the next short clause.
    pub(crate) fn pass_short(&mut self)
        requires { self.old.looked < length self.old.shorts }
        ensures { self.new ≡ record self.old { looked = self.old.looked + 1 } }
    {
        self.looked += 1;
    }

    pub(crate) fn shorts_left(&self) -> bool
        ensures yes { result ≡ true → self.now.looked < length self.now.shorts }
        ensures no { result ≡ false → length self.now.shorts ≤ self.now.looked }
    {
        self.looked < self.shorts.len()
    }

    // Moves the cursor back to a place, if it is past it.
    pub(crate) fn fall_back(&mut self, place: usize)
        ensures { self.new ≡ record self.old { cursor = min self.old.cursor place } }
    {
        if place < self.cursor {
            self.cursor = place;
        }
    }

    // Looks at the trail and at the short clauses from their begin on.
    pub(crate) fn restart(&mut self)
        ensures { self.new ≡ record self.old { cursor = 0; looked = 0 } }
    {
        self.cursor = 0;
        self.looked = 0;
    }

    // Passes by the next clause.
    pub(crate) fn pass(&mut self)
        requires { self.old.linked + 1 < 2 ^ 64 }
        ensures { self.new ≡ passed self.old }
    {
        self.linked += 1;
    }

    // Links the slots of the next clause to two literals.
    pub(crate) fn adopt(&mut self, one: Lit, two: Lit)
        requires within { 2 * self.old.linked + 1 < length self.old.slots }
        requires one { code one < length self.old.heads }
        requires two { code two < length self.old.heads }
        ensures { self.new ≡ adopted self.old one two }
    {
        let slot = 2 * self.linked;
        self.link(slot, one);
        self.link(slot + 1, two);
        self.linked += 1;
    }

    // Makes the list of a literal the work list, and moves the cursor past the place at which it fell.
    pub(crate) fn begin(&mut self, lit: Lit)
        requires named { code lit < length self.old.heads }
        requires few { self.old.cursor + 1 < 2 ^ 64 }
        ensures { self.new ≡ record self.old { heads = slice_set (slice_set self.old.heads 0 (link_at self.old.heads (code lit))) (code lit) 0; cursor = self.old.cursor + 1 } }
    {
        let place = code_of(lit);
        self.heads[0] = self.heads[place];
        self.heads[place] = 0;
        self.cursor += 1;
    }

    // Moves the cursor back by one place.
    pub(crate) fn step_back(&mut self)
        requires { 0 < self.old.cursor }
        ensures { self.new ≡ record self.old { cursor = self.old.cursor - 1 } }
    {
        self.cursor -= 1;
    }

    // Whether the work list has a slot.
    pub(crate) fn has_work(&self) -> bool
        requires { 0 < length self.now.heads }
        ensures yes { result ≡ true → 0 < link_at self.now.heads 0 }
        ensures no { result ≡ false → link_at self.now.heads 0 ≡ 0 }
    {
        self.heads[0] > 0
    }

    pub(crate) fn cursor(&self) -> usize
        ensures { result ≡ self.now.cursor }
    {
        self.cursor
    }

    pub(crate) fn linked(&self) -> usize
        ensures { result ≡ self.now.linked }
    {
        self.linked
    }

    pub(crate) fn watched(&self, slot: usize) -> Lit
        requires { slot < length self.now.slots }
        ensures { result ≡ watch_at self.now.slots slot }
    {
        lit_of(self.slots[slot])
    }
}

// Want of memory where 32 bits do not number so many.
fn check_count(count: usize) -> Result<(), AllocError>
    ensures { OnOk result (count < 2 ^ 32) }
{
    if count > u32::MAX as usize {
        return Err(AllocError);
    }
    Ok(())
}

// Adds the heads of empty lists, for which there is room.
fn add_heads(heads: &mut Vec<u32>, count: usize)
    requires { vec_len heads.old + count ≤ vec_capacity heads.old }
    ensures items { heads.new.items ≡ heads.old.items ++ replicate count 0 }
    ensures room { vec_capacity heads.new ≡ vec_capacity heads.old }
{
    for _ in 0..count {
        heads.push_reserved(0);
    }
}

// The number of the list of a literal.
fn code_of(lit: Lit) -> usize
    ensures { result ≡ code lit }
{
    let first = 2 * (lit.variable as usize) + 2;
    if lit.positive { first + 1 } else { first }
}

// The literal that a slot watches.
fn lit_of(slot: Packed) -> Lit
    ensures { result ≡ (opened slot).lit }
{
    Lit {
        variable: slot.lit / 2,
        positive: slot.lit % 2 == 1,
    }
}

// The clause of a slot.
pub(crate) fn clause_of(slot: usize) -> usize
    ensures low { result * 2 ≤ slot }
    ensures high { slot ≤ result * 2 + 1 }
{
    slot / 2
}

// The other slot of the same clause.
pub(crate) fn partner_of(slot: usize, number: usize) -> usize
    requires low { number * 2 ≤ slot }
    requires high { slot ≤ number * 2 + 1 }
    requires few { slot + 1 < 2 ^ 64 }
    ensures { ArePartners number slot result }
{
    if slot == number * 2 {
        slot + 1
    } else {
        slot - 1
    }
}
