ghost use Rattle.std.specs.Prelude.{◌≡◌, ◌≤◌, ◌∷◌, [], IfOk, OnOk, length};
ghost use Rattle.gp_constraint.specs.Numbering.{number_of, numbered_lit};
ghost use Rattle.gp_constraint.specs.QueryNames.{AreMentioned, all_names};

use crate::naming::Names;
use crate::symbol::{Symbol, SymbolicLit};
use gp_base::Row;
use gp_clause::Lit;
use std::alloc::{AllocError, Global};
use std::marker::Model;

/// The symbols of a window, which are not copied, and after them those of a query.
#[derive(Drop)]
pub struct QueryNames<'a> {
    base: &'a Names,
    own: Names,
}

impl<'a> Model for QueryNames<'a> {
    ghost use Rattle.std.specs.Prelude.{◌+◌, ◌<◌, ◌^◌, length};
    ghost use Rattle.gp_constraint.specs.QueryNames.{QueryNamesForm};

    ghost Value = { QueryNamesForm };

    ghost view = { λ names. record { base = names.base.now; own = names.own } };

    ghost invariant = { λ names. length names.base.now + length names.own < 2 ^ 32 };
}

impl<'a> QueryNames<'a> {
    pub fn new(alloc: Global, base: &'a Names) -> QueryNames<'a>
        ensures { result ≡ record { base = base.now; own = [] } }
    {
        let _fits = base.len();
        QueryNames {
            base,
            own: Names::new(alloc),
        }
    }

    /// Numbers a symbol after the others, unless it has a number. More than can be counted want more memory than there is.
    pub fn mention(&mut self, symbol: Symbol) -> Result<(), AllocError>
        ensures { OnOk result (AreMentioned self.old self.new (symbol ∷ [])) }
    {
        match self.base.find(symbol) {
            Some(_) => Ok(()),
            None => self.add(symbol),
        }
    }

    fn add(&mut self, symbol: Symbol) -> Result<(), AllocError>
        requires { length self.old.base ≤ number_of self.old.base symbol }
        ensures { OnOk result (AreMentioned self.old self.new (symbol ∷ [])) }
    {
        let Some(before_last) = self.base.len().checked_add(self.own.len()) else {
            return Err(AllocError);
        };
        let Some(_last) = before_last.checked_add(1) else {
            return Err(AllocError);
        };
        self.own.number(symbol)?;
        Ok(())
    }

    /// The number of a symbol.
    pub fn number(&self, symbol: Symbol) -> u32
        ensures { result ≡ number_of (all_names self.now) symbol }
    {
        match self.base.find(symbol) {
            Some(number) => number,
            None => self.base.len() + self.own.place(symbol),
        }
    }

    /// The symbols of the query alone.
    pub fn own(&self) -> &[Symbol]
        ensures { result.now ≡ self.now.own }
    {
        self.own.as_slice()
    }

    /// All symbols, each at the place of its number.
    pub fn all(&self, alloc: Global) -> Result<Row<Symbol>, AllocError>
        ensures { IfOk result (λ symbols. symbols ≡ all_names self.now) }
    {
        let mut symbols = Vec::from_slice(alloc, self.base.as_slice())?;
        symbols.extend_from_slice(self.own.as_slice())?;
        Ok(Row::from_vec(symbols))
    }

    pub fn lit(&self, lit: SymbolicLit) -> Lit
        ensures { result ≡ numbered_lit (all_names self.now) lit }
    {
        Lit {
            variable: self.number(lit.symbol),
            positive: lit.positive,
        }
    }
}
