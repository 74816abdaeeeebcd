ghost use Rattle.std.specs.Prelude.{◌≡◌, ◌++◌, IfOk, OnOk, flat_map};
ghost use Rattle.std.specs.List.{list_any};
ghost use Rattle.gp_constraint.specs.Terms.{before, chosen, constant, executed, first, is_always, lit_of, literal, start_chosen};

use crate::point::Point;
use crate::symbol::{Symbol, SymbolicLit};
use gp_base::Row;
use std::alloc::{AllocError, Global};

/// A literal of a clause, before constants are taken out.
#[derive(Clone, Copy)]
pub enum Term {
    Always,
    Never,
    Literal(SymbolicLit),
}

pub fn literal(symbol: Symbol, positive: bool) -> Term
    ensures { result ≡ literal symbol positive }
{
    Term::Literal(SymbolicLit { symbol, positive })
}

fn constant(value: bool) -> Term
    ensures { result ≡ constant value }
{
    if value { Term::Always } else { Term::Never }
}

pub fn executed(p: &Point, positive: bool) -> Term
    ensures { result ≡ executed p.now positive }
{
    literal(Symbol::Executed(p.number), positive)
}

pub fn chosen(r: &Point, w: &Point, positive: bool) -> Term
    ensures { result ≡ chosen r.now w.now positive }
{
    literal(Symbol::Choice(r.number, w.number), positive)
}

pub fn start_chosen(r: &Point, positive: bool) -> Term
    ensures { result ≡ start_chosen r.now positive }
{
    literal(Symbol::StartChoice(r.number), positive)
}

pub fn first(a: &Point, c: &Point, positive: bool) -> Term
    ensures { result ≡ first a.now c.now positive }
{
    literal(Symbol::First(a.number, c.number), positive)
}

pub fn before(e: &Point, f: &Point) -> Term
    ensures { result ≡ before e.now f.now }
{
    if e.id.thread == f.id.thread {
        constant(e.id.index < f.id.index)
    } else if e.number < f.number {
        literal(Symbol::Order(e.number, f.number), true)
    } else {
        literal(Symbol::Order(f.number, e.number), false)
    }
}

pub fn is_always(term: Term) -> bool
    ensures { result ≡ is_always term }
{
    matches!(term, Term::Always)
}

pub fn has_always(terms: &[Term]) -> bool
    ensures { result ≡ list_any is_always terms.now }
{
    terms.iter().any(|term| is_always(*term))
}

/// The literals of terms.
pub fn lits_of(alloc: Global, terms: &[Term]) -> Result<Row<SymbolicLit>, AllocError>
    ensures { IfOk result (λ lits. lits ≡ flat_map lit_of terms.now) }
{
    let mut lits = Row::new(alloc);
    for term in terms {
        push_lit(&mut lits, *term)?;
    }
    Ok(lits)
}

/// Adds the literal of a term, where it has one.
pub fn push_lit(lits: &mut Row<SymbolicLit>, term: Term) -> Result<(), AllocError>
    ensures { OnOk result (lits.new ≡ lits.old ++ lit_of term) }
{
    match term {
        Term::Literal(lit) => lits.push(lit),
        Term::Always | Term::Never => Ok(()),
    }
}
