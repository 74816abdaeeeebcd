ghost use Rattle.std.specs.Prelude.{◌≡◌, ℕ, ◌+◌, ◌<◌, ◌^◌, [], length, map, position, IfOk, OnErr, OnOk, IfSome};
ghost use Rattle.gp_constraint.specs.Numbering.{number_of, point_names, with_mention, with_mentions};
ghost use Rattle.gp_constraint.specs.Symbols.{kind_of, symbol_eq};

use crate::symbol::Symbol;
use gp_base::Row;
use gp_clause::Kind;
use indexmap::IndexSet;
use std::alloc::{AllocError, Global};
use std::marker::Model;

/// The symbols that were mentioned, in the order of their first mentions. The number of a symbol is its place, and is
/// found by its hash.
#[derive(Drop)]
pub struct Names {
    set: IndexSet<Symbol>,
}

impl Model for Names {
    ghost use Rattle.std.specs.Prelude.{List, ◌<◌, ◌^◌, length};
    ghost use Rattle.gp_constraint.specs.declared.symbol.Symbol.{Symbol};

    ghost Value = { List Symbol };

    ghost view = { λ names. names.set.keys };

    ghost invariant = { λ names. length names.set.keys < 2 ^ 32 };
}

impl Names {
    pub fn new(alloc: Global) -> Names
        ensures { result ≡ [] }
    {
        Names {
            set: IndexSet::new(alloc),
        }
    }

    /// The names of so many points.
    pub fn of_points(alloc: Global, points: u32) -> Result<Names, AllocError>
        ensures { IfOk result (λ names. names ≡ point_names points) }
    {
        let mut names = Names::new(alloc);
        for p in 0..points {
            names.number(Symbol::Executed(p))?;
        }
        Ok(names)
    }

    /// A copy, of names none of which comes twice.
    pub fn copy(&self, alloc: Global) -> Result<Names, AllocError>
        ensures { IfOk result (λ copy. copy ≡ with_mentions [] self.now) }
    {
        let mut copy = Names::new(alloc);
        match copy.number_all(self.set.as_slice()) {
            Ok(()) => Ok(copy),
            Err(error) => {
                drop(copy);
                Err(error)
            }
        }
    }

    fn number_all(&mut self, symbols: &[Symbol]) -> Result<(), AllocError>
        ensures { OnOk result (self.new ≡ with_mentions self.old symbols.now) }
    {
        for symbol in symbols {
            self.number(*symbol)?;
        }
        Ok(())
    }

    /// The number of a symbol, which is mentioned. More symbols than can be counted want more memory than there is.
    pub fn number(&mut self, symbol: Symbol) -> Result<u32, AllocError>
        ensures names { OnOk result (self.new ≡ with_mention self.old symbol) }
        ensures number { IfOk result (λ n. n ≡ number_of self.old symbol) }
        ensures err { OnErr result (self.new ≡ self.old) }
    {
        if self.set.len() + 1 > u32::MAX as usize {
            return Err(AllocError);
        }
        let (index, _fresh) = self.set.insert_full(symbol)?;
        Ok(index as u32)
    }

    /// The number of a symbol, where it was mentioned.
    pub fn find(&self, symbol: Symbol) -> Option<u32>
        ensures { result ≡ position (symbol_eq symbol) self.now }
    {
        let index = self.set.get_index_of(&symbol)?;
        Some(index as u32)
    }

    /// The number that a symbol has, or gets when it is mentioned next.
    pub fn place(&self, symbol: Symbol) -> u32
        ensures { result ≡ number_of self.now symbol }
    {
        match self.find(symbol) {
            Some(number) => number,
            None => self.len(),
        }
    }

    pub fn len(&self) -> u32
        ensures { result ≡ length self.now }
    {
        self.set.len() as u32
    }

    pub fn as_slice(&self) -> &[Symbol]
        ensures { result.now ≡ self.now }
    {
        self.set.as_slice()
    }
}

/// What the variables of symbols are.
pub fn kinds_of(alloc: Global, names: &[Symbol]) -> Result<Row<Kind>, AllocError>
    ensures { IfOk result (λ kinds. kinds ≡ map kind_of names.now) }
{
    let mut kinds = Row::new(alloc);
    for symbol in names {
        kinds.push(kind_of(*symbol))?;
    }
    Ok(kinds)
}

fn kind_of(symbol: Symbol) -> Kind
    ensures { result ≡ kind_of symbol }
{
    match symbol {
        Symbol::Order(a, b) => Kind::Order { a, b },
        Symbol::Span(a, b, c) => Kind::Span { a, b, c },
        _ => Kind::Free,
    }
}
