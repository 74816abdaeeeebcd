ghost use Rattle.std.specs.Prelude.{◌≡◌, ◌<◌, ◌+◌, ◌*◌, ◌/◌, ◌==◌, [], ◌∷◌, ◌++◌, drop, length, slice_set, slice_index_or, IfOk, OnOk, OnErr, true, false};
ghost use Rattle.gp_clause.specs.Clause.{IsRising};
ghost use Rattle.gp_sat.specs.Ranges.{place_of, is_odd, end_before, ranges_of, no_range};
ghost use Rattle.gp_sat.specs.State.{clause_at, no_clause};

use gp_clause::{Clause, Lit};
use std::alloc::{AllocError, Global};
use std::marker::Model;

/// Where the literals of a clause begin in the array of all literals, as twice the place, and one more where the clause is
/// attached. In 4 bytes, since propagation waits for them: the literals end where those of the next clause begin.
#[derive(Clone, Copy, PartialEq, Eq, Drop)]
pub struct Begin {
    pub code: u32,
}

/// Where the literals of a clause lie, and whether it is attached.
#[derive(Clone, Copy, PartialEq, Eq, Drop)]
pub struct Range {
    pub start: usize,
    pub end: usize,
    pub attached: bool,
}

// The last place at which a clause can begin: twice as much and one more has 32 bits.
const LAST_BEGIN: usize = 2147483647;

/// The clauses by number. The literals of all of them lie in one array, one clause behind the other. A clause is kept when
/// it is no longer attached, since it may be the reason of a literal.
#[derive(Drop)]
pub struct Store {
    literals: Vec<Lit>,
    begins: Vec<Begin>,
}

impl Model for Store {
    ghost use Rattle.std.specs.Prelude.{List, length};
    ghost use Rattle.gp_sat.specs.Stored.{Stored};
    ghost use Rattle.gp_sat.specs.Ranges.{ranges_of, stored, AreRanges};

    ghost Value = { List Stored };

    ghost view = { λ s. stored s.literals.items (ranges_of (length s.literals.items) s.begins.items) };

    ghost invariant = { λ s. AreRanges s.literals.items (ranges_of (length s.literals.items) s.begins.items) };
}

impl Store {
    pub fn new(alloc: Global) -> Store
        ensures { result ≡ [] }
    {
        Store {
            literals: Vec::new(alloc),
            begins: Vec::new(alloc),
        }
    }

    pub fn len(&self) -> usize
        ensures { result ≡ length self.now }
    {
        self.begins.len()
    }

    /// The literals of a clause, attached or not.
    pub fn lits(&self, number: usize) -> &[Lit]
        requires { number < length self.now }
        ensures lits { result.now ≡ clause_at self.now number }
        ensures rising { IsRising result.now }
    {
        let range = range_of(&self.begins, self.literals.len(), number);
        &self.literals[range.start..range.end]
    }

    pub fn is_attached(&self, number: usize) -> bool
        requires { number < length self.now }
        ensures { result ≡ (slice_index_or self.now number no_clause).attached }
    {
        self.begins[number].is_attached()
    }

    /// Whether a clause has two literals. It does not look at them.
    pub fn is_pair(&self, number: usize) -> bool
        requires { number < length self.now }
        ensures { result ≡ (length (clause_at self.now number) == 2) }
    {
        let range = range_of(&self.begins, self.literals.len(), number);
        range.end - range.start == 2
    }

    /// Adds a clause under the next number, attached. A place has 31 bits, so that a clause behind 2^31 literals, which take
    /// 17 GB, is want of memory.
    pub fn push(&mut self, clause: &Clause) -> Result<(), AllocError>
        ensures ok { OnOk result (self.new ≡ self.old ++ record { clause = clause.now; attached = true } ∷ []) }
        ensures err { OnErr result (self.new ≡ self.old) }
    {
        let begin = attached_at(self.literals.len())?;
        self.begins.reserve(1)?;
        self.literals.extend_from_slice(clause.lits())?;
        self.begins.push_reserved(begin);
        Ok(())
    }

    /// Detaches the clause of a number.
    pub fn detach(&mut self, number: usize)
        requires { number < length self.old }
        ensures { self.new ≡ slice_set self.old number (record { clause = clause_at self.old number; attached = false }) }
    {
        self.begins[number].detach();
    }
}

impl Begin {
    fn place(self) -> usize
        ensures { result ≡ place_of self }
    {
        (self.code / 2) as usize
    }

    fn is_attached(self) -> bool
        ensures { result ≡ is_odd self }
    {
        self.code % 2 == 1
    }

    fn detach(&mut self)
        ensures { self.new.code ≡ self.old.code / 2 * 2 }
    {
        self.code = self.code / 2 * 2;
    }
}

// The begin of an attached clause at a place.
fn attached_at(place: usize) -> Result<Begin, AllocError>
    ensures { IfOk result (λ begin. begin.code ≡ 2 * place + 1) }
{
    if place > LAST_BEGIN {
        return Err(AllocError);
    }
    Ok(Begin {
        code: 2 * place as u32 + 1,
    })
}

// Where the clause before a number ends: where that of the number begins, or behind so many literals.
fn end_before(begins: &[Begin], total: usize, number: usize) -> usize
    ensures { result ≡ end_before total (drop number begins.now) }
{
    match begins.get(number) {
        Some(begin) => begin.place(),
        None => total,
    }
}

// Where the clause of a number lies among so many literals.
fn range_of(begins: &[Begin], total: usize, number: usize) -> Range
    requires { number < length begins.now }
    ensures { result ≡ slice_index_or (ranges_of total begins.now) number no_range }
{
    let begin = begins[number];
    let end = end_before(begins, total, number + 1);
    Range {
        start: begin.place(),
        end,
        attached: begin.is_attached(),
    }
}
