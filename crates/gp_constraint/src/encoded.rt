ghost use Rattle.std.specs.Prelude.{◌≡◌, IfOk};
ghost use Rattle.gp_clause.specs.Problem.{IsValidProblem};
ghost use Rattle.gp_constraint.specs.Base.{base_of, names_in};
ghost use Rattle.gp_constraint.specs.Encoded.{IsBase, IsEncodable, IsSmall, symbol_lit, order_between, order_in, point_in};
ghost use Rattle.gp_constraint.specs.Points.{number_in, points_of, sizes_of};

use crate::naming::Names;
use crate::numbers::{number_at, point_in};
use crate::point::Point;
use crate::symbol::Symbol;
use gp_base::Row;
use gp_clause::{Lit, Problem};
use gp_window::{EventId, Window};
use std::alloc::AllocError;
use std::marker::Model;

/// What is made of a window: its points, and its problem with the numbers of its symbols and of its events.
#[derive(Drop)]
pub(crate) struct Parts {
    pub(crate) points: Row<Point>,
    pub(crate) names: Names,
    pub(crate) sizes: Row<u32>,
    pub(crate) problem: Problem,
}

/// A window with its problem, and the numbers of its symbols and of its events. Contracts see the window, of which all
/// the rest is made.
#[derive(Drop)]
pub struct Encoded {
    window: Window,
    points: Row<Point>,
    names: Names,
    sizes: Row<u32>,
    problem: Problem,
}

impl Model for Encoded {
    ghost use Rattle.gp_window.specs.WindowForm.{WindowForm};
    ghost use Rattle.gp_constraint.specs.Encoded.{IsBase};

    ghost Value = { WindowForm };

    ghost view = { λ encoded. encoded.window };

    ghost invariant = { λ encoded. IsBase encoded.window encoded.points encoded.names encoded.sizes encoded.problem };
}

impl Encoded {
    pub(crate) fn new(window: Window, parts: Parts) -> Encoded
        requires { IsBase window parts.points parts.names parts.sizes parts.problem }
        ensures { result ≡ window }
    {
        let Parts {
            points,
            names,
            sizes,
            problem,
        } = parts;
        Encoded {
            window,
            points,
            names,
            sizes,
            problem,
        }
    }

    /// The window, which is not too large.
    pub fn window(&self) -> &Window
        ensures window { result.now ≡ self.now }
        ensures encodable { IsEncodable self.now }
    {
        &self.window
    }

    pub fn problem(&self) -> &Problem
        ensures problem { result.now ≡ base_of self.now }
        ensures valid { IsValidProblem result.now }
        ensures encodable { IsEncodable self.now }
    {
        &self.problem
    }

    pub fn points(&self) -> &[Point]
        ensures { result.now ≡ points_of self.now }
    {
        self.points.as_slice()
    }

    /// The window and its problem, with the numbers of its symbols and of its events.
    pub(crate) fn into_parts(self) -> (Window, Problem, Names, Row<u32>)
        ensures window { result.0 ≡ self }
        ensures problem { result.1 ≡ base_of self }
        ensures names { result.2 ≡ names_in self }
        ensures sizes { result.3 ≡ sizes_of self }
        ensures small { IsSmall result.3 }
    {
        let Encoded {
            window,
            points: _,
            names,
            sizes,
            problem,
        } = self;
        (window, problem, names, sizes)
    }

    pub(crate) fn names(&self) -> &Names
        ensures { result.now ≡ names_in self.now }
    {
        &self.names
    }

    /// The number of an event, or that it would have. One that does not fit wants more memory than there is.
    pub(crate) fn number(&self, event: EventId) -> Result<u32, AllocError>
        ensures { IfOk result (λ number. number ≡ number_in self.now event) }
    {
        number_at(self.sizes.as_slice(), event)
    }

    /// The point of an event, where there is one.
    pub fn point_of(&self, event: EventId) -> Option<u32>
        ensures { result ≡ point_in (sizes_of self.now) event }
    {
        point_in(self.sizes.as_slice(), event)
    }

    /// The variable that is true where an event is executed.
    pub fn executed(&self, event: EventId) -> Option<u32>
        ensures { result ≡ point_in (sizes_of self.now) event }
    {
        self.point_of(event)
    }

    /// That the first event is before the second, of another thread. Nothing where the constraints do not speak of
    /// their order.
    pub fn order(&self, first: EventId, second: EventId) -> Option<Lit>
        ensures { result ≡ order_in self.now first second }
    {
        if first.thread == second.thread {
            return None;
        }
        let one = self.point_of(first)?;
        let other = self.point_of(second)?;
        order_between(self.names(), one, other)
    }
}

fn order_between(names: &Names, one: u32, other: u32) -> Option<Lit>
    ensures { result ≡ order_between names.now one other }
{
    if one < other {
        symbol_lit(names, Symbol::Order(one, other), true)
    } else {
        symbol_lit(names, Symbol::Order(other, one), false)
    }
}

fn symbol_lit(names: &Names, symbol: Symbol, positive: bool) -> Option<Lit>
    ensures { result ≡ symbol_lit names.now symbol positive }
{
    let variable = names.find(symbol)?;
    Some(Lit { variable, positive })
}
