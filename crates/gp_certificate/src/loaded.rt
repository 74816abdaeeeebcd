ghost use Rattle.std.specs.Prelude.{◌≡◌, ◌+◌, ◌-◌, ◌<◌, ◌≤◌, ◌^◌, ℕ, [], ◌∷◌, ◌++◌, length, take, replicate, cond, OnOk, OnErr, All, Contains, List, vec_capacity};
ghost use Rattle.gp_clause.specs.declared.lit.Lit.{Lit};
ghost use Rattle.gp_clause.specs.Lit.{lit_eq};
ghost use Rattle.gp_certificate.specs.Rows.{occurs, count_of, clause_at, left_at, code_of, row_of, HasShort};

use crate::clause_list::ClauseList;
use gp_clause::Lit;
use std::alloc::{AllocError, Global};
use std::marker::Model;

// The clauses of a bench, and for each of them how many of its literals may still be true. The row of a literal lists the
// numbers of the clauses in which it stands.
#[derive(Drop)]
pub(crate) struct Loaded {
    clauses: ClauseList,
    rows: Vec<Vec<u32>>,
    left: Vec<usize>,
    short: Vec<u32>,
}

impl Model for Loaded {
    ghost use Rattle.std.specs.Prelude.{length};
    ghost use Rattle.gp_certificate.specs.Loaded.{LoadedForm, IsListed};

    ghost Value = { LoadedForm };

    ghost view = { λ l. record { clauses = l.clauses.lists; left = l.left.items; rows = length l.rows.items } };

    ghost invariant = { IsListed };
}

impl Loaded {
    // Nothing is loaded.
    pub(crate) fn new(alloc: Global) -> Loaded
        ensures clauses { result.clauses ≡ [] }
        ensures left { result.left ≡ [] }
    {
        Loaded {
            clauses: ClauseList::new(alloc),
            rows: Vec::new(alloc),
            left: Vec::new(alloc),
            short: Vec::new(alloc),
        }
    }

    // Adds rows until there are so many.
    pub(crate) fn widen(&mut self, count: usize) -> Result<(), AllocError>
        ensures same { self.new ≡ record self.old { rows = self.new.rows } }
        ensures more { self.old.rows ≤ self.new.rows }
        ensures enough { OnOk result (count ≤ self.new.rows) }
    {
        add_rows(&mut self.rows, count)
    }

    // How many clauses are loaded.
    pub(crate) fn len(&self) -> usize
        ensures { result ≡ length self.now.clauses }
    {
        self.clauses.len()
    }

    // The clause with a number.
    pub(crate) fn clause(&self, number: usize) -> &[Lit]
        requires { number < length self.now.clauses }
        ensures { result.now ≡ clause_at self.now.clauses number }
    {
        self.clauses.get(number)
    }

    // The count of the clause with a number.
    pub(crate) fn left(&self, number: usize) -> usize
        requires { number < length self.now.left }
        ensures { result ≡ left_at self.now.left number }
    {
        self.left[number]
    }

    // The numbers of the clauses in which a literal stands.
    pub(crate) fn row(&self, lit: Lit) -> &[u32]
        ensures { (number : ℕ) → 1 ≤ occurs lit (clause_at self.now.clauses number) → Contains result.now number }
    {
        row(&self.rows, lit)
    }

    // The numbers of the clauses of fewer than two literals.
    pub(crate) fn short(&self) -> &[u32]
        ensures { HasShort self.now.clauses result.now }
    {
        self.short.as_slice()
    }

    // Loads one more clause, whose literals are counted. After want of memory what is loaded is as before.
    pub(crate) fn push(&mut self, lits: &[Lit]) -> Result<(), AllocError>
        requires { All (λ lit. code_of lit < self.old.rows) lits.now }
        ensures ok { OnOk result (self.new ≡ record self.old { clauses = self.old.clauses ++ lits.now ∷ []; left = self.old.left ++ length lits.now ∷ [] }) }
        ensures err { OnErr result (self.new ≡ self.old) }
    {
        let Ok(number) = u32::try_from(self.clauses.len()) else {
            return Err(AllocError);
        };
        self.clauses.reserve(lits.len(), 1)?;
        self.left.reserve(1)?;
        self.short.reserve(1)?;
        list(&mut self.rows, lits, number)?;
        self.clauses.push_reserved(lits);
        self.left.push_reserved(lits.len());
        note_short(&mut self.short, lits, number);
        Ok(())
    }

    // Unloads all clauses but so many first ones.
    pub(crate) fn truncate(&mut self, count: usize)
        requires { length self.old.left ≡ length self.old.clauses }
        ensures { self.new ≡ record self.old { clauses = take count self.old.clauses; left = take count self.old.left } }
    {
        while self.clauses.len() > count {
            self.unload_last();
        }
    }

    // Unloads the last clause.
    fn unload_last(&mut self)
        requires { 0 < length self.old.clauses }
        ensures { self.new ≡ record self.old { clauses = take (length self.old.clauses - 1) self.old.clauses; left = take (length self.old.clauses - 1) self.old.left } }
    {
        let last = self.clauses.len() - 1;
        unlist(&mut self.rows, self.clauses.get(last));
        pop_from(&mut self.short, last);
        self.clauses.truncate(last);
        self.left.truncate(last);
    }

    // Lowers the count of each clause by one for each time that a literal stands in it.
    pub(crate) fn fall(&mut self, lit: Lit)
        requires { (number : ℕ) → occurs lit (clause_at self.old.clauses number) ≤ left_at self.old.left number }
        ensures same { self.new ≡ record self.old { left = self.new.left } }
        ensures size { length self.new.left ≡ length self.old.left }
        ensures less { (number : ℕ) → left_at self.new.left number + occurs lit (clause_at self.old.clauses number) ≡ left_at self.old.left number }
    {
        lower(row(&self.rows, lit), &mut self.left);
    }

    // Raises the count of each clause by one for each time that a literal stands in it.
    pub(crate) fn rise(&mut self, lit: Lit)
        requires { (number : ℕ) → left_at self.old.left number + occurs lit (clause_at self.old.clauses number) ≤ length (clause_at self.old.clauses number) }
        ensures same { self.new ≡ record self.old { left = self.new.left } }
        ensures size { length self.new.left ≡ length self.old.left }
        ensures more { (number : ℕ) → left_at self.new.left number ≡ left_at self.old.left number + occurs lit (clause_at self.old.clauses number) }
    {
        raise(row(&self.rows, lit), &mut self.left);
    }
}

// Lowers the counts of the numbers in a row, each by one for each time that it stands there.
fn lower(row: &[u32], left: &mut Vec<usize>)
    requires { (number : ℕ) → count_of number row.now ≤ left_at left.old.items number }
    ensures size { length left.new.items ≡ length left.old.items }
    ensures less { (number : ℕ) → left_at left.new.items number + count_of number row.now ≡ left_at left.old.items number }
{
    for number in row {
        left[*number as usize] -= 1;
    }
}

// Raises the counts of the numbers in a row, each by one for each time that it stands there.
fn raise(row: &[u32], left: &mut Vec<usize>)
    requires within { All (λ number. number < length left.old.items) row.now }
    requires few { (number : ℕ) → left_at left.old.items number + count_of number row.now < 2 ^ 64 }
    ensures size { length left.new.items ≡ length left.old.items }
    ensures more { (number : ℕ) → left_at left.new.items number ≡ left_at left.old.items number + count_of number row.now }
{
    for number in row {
        left[*number as usize] += 1;
    }
}

// Adds empty rows until there are so many.
fn add_rows(rows: &mut Vec<Vec<u32>>, count: usize) -> Result<(), AllocError>
    ensures enough { OnOk result (count ≤ length rows.new.items) }
    ensures more { length rows.old.items ≤ length rows.new.items }
    ensures same { (lit : Lit) → row_of rows.new.items lit ≡ row_of rows.old.items lit }
{
    let alloc = *rows.allocator();
    for _row in rows.len()..count {
        rows.push(Vec::new(alloc))?;
    }
    Ok(())
}

// Notes the number of a clause where it has fewer than two literals. There is room for one more.
fn note_short(short: &mut Vec<u32>, lits: &[Lit], number: u32)
    requires { length short.old.items < vec_capacity short.old }
    ensures keeps { (other : ℕ) → Contains short.old.items other → Contains short.new.items other }
    ensures noted { length lits.now < 2 → Contains short.new.items number }
{
    if lits.len() < 2 {
        short.push_reserved(number);
    }
}

// Lists a clause in the rows of its literals. After want of memory the rows are as before.
fn list(rows: &mut Vec<Vec<u32>>, lits: &[Lit], number: u32) -> Result<(), AllocError>
    requires { All (λ lit. code_of lit < length rows.old.items) lits.now }
    ensures size { length rows.new.items ≡ length rows.old.items }
    ensures ok { OnOk result ((one : Lit) → row_of rows.new.items one ≡ row_of rows.old.items one ++ replicate (occurs one lits.now) number) }
    ensures err { OnErr result ((one : Lit) → row_of rows.new.items one ≡ row_of rows.old.items one) }
{
    for (place, lit) in lits.iter().enumerate() {
        let Ok(_noted) = note(rows, *lit, number) else {
            unlist(rows, &lits[..place]);
            return Err(AllocError);
        };
    }
    Ok(())
}

// Lists a clause in the row of a literal.
fn note(rows: &mut Vec<Vec<u32>>, lit: Lit, number: u32) -> Result<(), AllocError>
    requires { code_of lit < length rows.old.items }
    ensures size { length rows.new.items ≡ length rows.old.items }
    ensures ok { OnOk result ((one : Lit) → row_of rows.new.items one ≡ row_of rows.old.items one ++ replicate (cond (lit_eq one lit) 1 0) number) }
    ensures err { OnErr result ((one : Lit) → row_of rows.new.items one ≡ row_of rows.old.items one) }
{
    rows[code(lit)].push(number)?;
    Ok(())
}

// Takes the last number out of the row of each literal, as often as it stands there.
fn unlist(rows: &mut Vec<Vec<u32>>, lits: &[Lit])
    ensures size { length rows.new.items ≡ length rows.old.items }
    ensures before { (base : Lit → List ℕ) (number : ℕ) → ((one : Lit) → row_of rows.old.items one ≡ base one ++ replicate (occurs one lits.now) number) → (one : Lit) → row_of rows.new.items one ≡ base one }
{
    for lit in lits {
        unnote(rows, *lit);
    }
}

// Takes the last number out of the row of a literal.
fn unnote(rows: &mut Vec<Vec<u32>>, lit: Lit)
    ensures size { length rows.new.items ≡ length rows.old.items }
    ensures before { (base : Lit → List ℕ) (number : ℕ) → ((one : Lit) → row_of rows.old.items one ≡ base one ++ replicate (cond (lit_eq one lit) 1 0) number) → (one : Lit) → row_of rows.new.items one ≡ base one }
{
    let place = code(lit);
    if place < rows.len() {
        rows[place].pop();
    }
}

// Takes the numbers from the count on off the end of a row.
fn pop_from(row: &mut Vec<u32>, count: usize)
    ensures { (number : ℕ) → number < count → Contains row.old.items number → Contains row.new.items number }
{
    while let Some(last) = row.as_slice().last().copied() {
        if (last as usize) < count {
            return;
        }
        row.pop();
    }
}

// The numbers that the row of a literal lists.
fn row(rows: &[Vec<u32>], lit: Lit) -> &[u32]
    ensures { result.now ≡ row_of rows.now lit }
{
    match rows.get(code(lit)) {
        Some(row) => row.as_slice(),
        None => &[],
    }
}

// The number of a literal.
fn code(lit: Lit) -> usize
    ensures { result ≡ code_of lit }
{
    2 * lit.variable as usize + usize::from(lit.positive)
}
