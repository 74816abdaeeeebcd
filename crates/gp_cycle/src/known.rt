ghost use Rattle.std.specs.Prelude.{◌≡◌, ◌<◌, ◌^◌, [], ◌∷◌, ◌++◌, ℕ, length, OnOk};
ghost use Rattle.gp_cycle.specs.Forced.{is_known, is_open};
ghost use Rattle.gp_cycle.specs.Known.{is_marked, place_of};

use gp_base::Row;
use gp_clause::Lit;
use std::alloc::{AllocError, Global};
use std::marker::Model;

/// Literals that are known, in order, with a mark at the place of each.
#[derive(Drop)]
pub(crate) struct Known {
    lits: Row<Lit>,
    marks: Vec<bool>,
}

impl Model for Known {
    ghost use Rattle.std.specs.Prelude.{List};
    ghost use Rattle.gp_clause.specs.declared.lit.Lit.{Lit};
    ghost use Rattle.gp_cycle.specs.Known.{AreMarked};

    ghost Value = { List Lit };

    ghost view = { λ known. known.lits };

    ghost invariant = { λ known. AreMarked known.lits known.marks.items };
}

impl Known {
    /// Nothing is known.
    pub(crate) fn new(alloc: Global) -> Known
        ensures { result ≡ [] }
    {
        Known {
            lits: Row::new(alloc),
            marks: Vec::new(alloc),
        }
    }

    pub(crate) fn len(&self) -> usize
        ensures { result ≡ length self.now }
    {
        self.lits.len()
    }

    pub(crate) fn into_lits(self) -> Row<Lit>
        ensures { result ≡ self }
    {
        let Known { lits, marks: _ } = self;
        lits
    }

    /// Adds a literal at the end, which may be known already.
    pub(crate) fn add(&mut self, lit: Lit) -> Result<(), AllocError>
        ensures { OnOk result (self.new ≡ self.old ++ lit ∷ []) }
    {
        let place = place_of(lit);
        make_place(&mut self.marks, place)?;
        self.lits.push(lit)?;
        self.marks[place] = true;
        Ok(())
    }

    /// Whether a literal is known.
    pub(crate) fn has(&self, lit: Lit) -> bool
        ensures { result ≡ is_known self.now lit }
    {
        is_marked(self.marks.as_slice(), place_of(lit))
    }

    /// Whether the negation of a literal is not known.
    pub(crate) fn is_open(&self, lit: Lit) -> bool
        ensures { result ≡ is_open self.now lit }
    {
        !self.has(lit.negated())
    }
}

/// The place of the mark of a literal.
fn place_of(lit: Lit) -> usize
    ensures place { result ≡ place_of lit }
    ensures small { result < 2 ^ 33 }
{
    let first = 2 * lit.variable as usize;
    if lit.positive { first + 1 } else { first }
}

/// Whether a place is marked.
fn is_marked(marks: &[bool], place: usize) -> bool
    ensures { result ≡ is_marked marks.now place }
{
    match marks.get(place) {
        Some(marked) => *marked,
        None => false,
    }
}

/// Makes marks up to a place, where there are none, that do not mark.
fn make_place(marks: &mut Vec<bool>, place: usize) -> Result<(), AllocError>
    requires { place < 2 ^ 33 }
    ensures same { (other : ℕ) → is_marked marks.new.items other ≡ is_marked marks.old.items other }
    ensures within { OnOk result (place < length marks.new.items) }
{
    if place < marks.len() {
        return Ok(());
    }
    marks.resize(place + 1, false)
}
