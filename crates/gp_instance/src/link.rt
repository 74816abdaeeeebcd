ghost use Rattle.std.specs.Prelude.{◌≡◌, IfOk, OnOk, true};
ghost use Rattle.std.specs.List.{list_all};
ghost use Rattle.gp_instance.specs.Partners.{IsLink, across, are_one_parameter, is_shared, opener, place_on};

use crate::beside::is_same_mark;
use crate::shape::terms_of;
use gp_base::Row;
use gp_property::{PatternAtom, Term};
use std::alloc::{AllocError, Global};

/// Which of two atoms, the first of which comes earlier in the pattern.
#[derive(Clone, Copy)]
pub enum Side {
    First,
    Second,
}

/// What two atoms want of their events.
#[derive(Drop)]
pub struct Link {
    /// They have one thread variable.
    pub same_thread: bool,
    /// They are of one step.
    pub same_step: bool,
    /// The second closes the region that the first opens.
    pub closing: bool,
    /// The first closes the region that the second opens.
    pub opening: bool,
    /// Where they have the same parameter: its places among the terms of the first and of the second.
    pub shared: Row<(usize, usize)>,
}

/// What two atoms, the first of which comes earlier in the pattern, want of their events.
pub fn link_of(alloc: Global, first: &PatternAtom, second: &PatternAtom) -> Result<Link, AllocError>
    ensures { IfOk result (λ link. IsLink first.now second.now link) }
{
    Ok(Link {
        same_thread: first.thread_var == second.thread_var,
        same_step: first.step == second.step,
        closing: is_same_mark(first.opens, second.closes),
        opening: is_same_mark(second.opens, first.closes),
        shared: shared_of(alloc, terms_of(&first.shape), terms_of(&second.shape))?,
    })
}

/// The atom that opens the region that the other closes.
pub fn opener(link: &Link) -> Option<Side>
    ensures { result ≡ opener link.now }
{
    if link.closing {
        return Some(Side::First);
    }
    if link.opening {
        return Some(Side::Second);
    }
    None
}

/// The other side.
pub fn across(side: Side) -> Side
    ensures { result ≡ across side }
{
    match side {
        Side::First => Side::Second,
        Side::Second => Side::First,
    }
}

/// The place on one side of two.
pub fn place_on(side: Side, places: (usize, usize)) -> usize
    ensures { result ≡ place_on side places }
{
    match side {
        Side::First => places.0,
        Side::Second => places.1,
    }
}

fn shared_of(
    alloc: Global,
    ones: &[Term],
    others: &[Term],
) -> Result<Row<(usize, usize)>, AllocError>
    ensures { IfOk result (λ shared. list_all (is_shared ones.now others.now) shared ≡ true) }
{
    let mut shared = Row::new(alloc);
    for place in 0..ones.len() {
        add_shared(ones, place, others, &mut shared)?;
    }
    Ok(shared)
}

/// Adds the places at which the other terms have the parameter of this place.
fn add_shared(
    ones: &[Term],
    place: usize,
    others: &[Term],
    shared: &mut Row<(usize, usize)>,
) -> Result<(), AllocError>
    requires { list_all (is_shared ones.now others.now) shared.old ≡ true }
    ensures { OnOk result (list_all (is_shared ones.now others.now) shared.new ≡ true) }
{
    for other in 0..others.len() {
        if is_shared(ones, others, (place, other)) {
            shared.push((place, other))?;
        }
    }
    Ok(())
}

fn is_shared(ones: &[Term], others: &[Term], places: (usize, usize)) -> bool
    ensures { result ≡ is_shared ones.now others.now places }
{
    match (ones.get(places.0), others.get(places.1)) {
        (Some(one), Some(other)) => are_one_parameter(one, other),
        _ => false,
    }
}

fn are_one_parameter(one: &Term, other: &Term) -> bool
    ensures { result ≡ are_one_parameter (Some one.now) (Some other.now) }
{
    match (one, other) {
        (Term::Param(one), Term::Param(other)) => one == other,
        _ => false,
    }
}
