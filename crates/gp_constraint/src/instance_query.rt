ghost use Rattle.std.specs.Prelude.{◌≡◌, ◌++◌, [], take, drop, IfOk, OnOk, flat_map, if◌then◌else◌, length, map, nat_lt};
ghost use Rattle.gp_instance.specs.Matches.{groups_of};
ghost use Rattle.gp_constraint.specs.declared.symbol.Symbol.TheVariants.{Order};
ghost use Rattle.gp_constraint.specs.Base.{names_in};
ghost use Rattle.gp_constraint.specs.Numbering.{numbered_lit};
ghost use Rattle.gp_constraint.specs.Points.{number_in, points_of};
ghost use Rattle.gp_constraint.specs.QueryNames.{AreMentioned, all_names};
ghost use Rattle.gp_constraint.specs.Query.{executed_lits, holds, order_lit, ordered, orders_from, pattern_lits, query_names, query_of, side, sides_of, span_lit, spans_in};
ghost use Rattle.gp_constraint.specs.Symbols.{kind_of};

use crate::encoded::Encoded;
use crate::naming::kinds_of;
use crate::point::Point;
use crate::query_names::QueryNames;
use crate::symbol::{Symbol, SymbolicLit};
use gp_base::Row;
use gp_clause::{Lit, Query};
use gp_instance::Instance;
use gp_property::{PatternStep, Property};
use gp_window::EventId;
use std::alloc::{AllocError, Global};

/// The query of an instance of a property in the window that is encoded. Its time is that of its own lists, and
/// of the events for each event of a step that is a group.
pub fn query(
    alloc: Global,
    encoded: &Encoded,
    property: &Property,
    instance: &Instance,
) -> Result<Query, AllocError>
    ensures { IfOk result (λ query. query ≡ query_of encoded.now property.now instance.now.events) }
{
    let ids = instance.events.as_slice();
    let lits = pattern_lits(alloc, encoded, property, ids)?;
    let names = query_names(alloc, encoded, property, ids, lits.as_slice())?;
    let query = numbered_query(alloc, &names, encoded, ids, lits.as_slice());
    drop((names, lits));
    query
}

/// The query of events and literals by the numbers of its symbols.
fn numbered_query(
    alloc: Global,
    names: &QueryNames<'_>,
    encoded: &Encoded,
    ids: &[EventId],
    lits: &[SymbolicLit],
) -> Result<Query, AllocError>
    ensures { IfOk result (λ query. query ≡ record { locals = map kind_of names.now.own; assumed = map (numbered_lit (all_names names.now)) (executed_lits encoded.now ids.now ++ lits.now) }) }
{
    let assumed = assumed(alloc, names, encoded, ids, lits)?;
    let locals = kinds_of(alloc, names.own())?;
    Ok(Query { locals, assumed })
}

/// The symbols of the window that is encoded and of the query of an instance, each at the place of its variable.
pub fn query_symbols(
    alloc: Global,
    encoded: &Encoded,
    property: &Property,
    instance: &Instance,
) -> Result<Row<Symbol>, AllocError>
    ensures { IfOk result (λ symbols. symbols ≡ query_names encoded.now property.now instance.now.events) }
{
    let ids = instance.events.as_slice();
    let lits = pattern_lits(alloc, encoded, property, ids)?;
    let names = query_names(alloc, encoded, property, ids, lits.as_slice())?;
    let symbols = names.all(alloc);
    drop((names, lits));
    symbols
}

/// The names of a query whose pattern has these literals.
fn query_names<'a>(
    alloc: Global,
    encoded: &'a Encoded,
    property: &Property,
    ids: &[EventId],
    lits: &[SymbolicLit],
) -> Result<QueryNames<'a>, AllocError>
    requires { lits.now ≡ pattern_lits encoded.now property.now ids.now }
    ensures base { IfOk result (λ names. names.base ≡ names_in encoded.now) }
    ensures all { IfOk result (λ names. all_names names ≡ query_names encoded.now property.now ids.now) }
{
    let mut names = QueryNames::new(alloc, encoded.names());
    match mention_all(&mut names, encoded, property.pattern(), ids, lits) {
        Ok(()) => Ok(names),
        Err(error) => {
            drop(names);
            Err(error)
        }
    }
}

/// The symbols of literals, and then the sides of each group.
fn mention_all(
    names: &mut QueryNames<'_>,
    encoded: &Encoded,
    pattern: &[PatternStep],
    ids: &[EventId],
    lits: &[SymbolicLit],
) -> Result<(), AllocError>
    ensures { OnOk result (AreMentioned names.old names.new (map (λ lit. lit.symbol) lits.now ++ flat_map (sides_of encoded.now) (groups_of pattern.now ids.now))) }
{
    mention_lits(names, lits)?;
    mention_sides(names, encoded, pattern, ids)
}

fn holds(symbol: Symbol) -> SymbolicLit
    ensures { result ≡ holds symbol }
{
    SymbolicLit {
        symbol,
        positive: true,
    }
}

/// One event before another, of a different thread.
fn ordered(encoded: &Encoded, one: EventId, other: EventId) -> Result<SymbolicLit, AllocError>
    ensures { IfOk result (λ lit. lit ≡ ordered encoded.now one other) }
{
    let first = encoded.number(one)?;
    let second = encoded.number(other)?;
    if first < second {
        return Ok(holds(Symbol::Order(first, second)));
    }
    Ok(SymbolicLit {
        symbol: Symbol::Order(second, first),
        positive: false,
    })
}

/// The events of a step, and those of the steps after it.
fn cut<'a>(step: &PatternStep, ids: &'a [EventId]) -> (&'a [EventId], &'a [EventId])
    ensures group { result.0.now ≡ take (length step.now.atoms) ids.now }
    ensures rest { result.1.now ≡ drop (length step.now.atoms) ids.now }
{
    ids.split_at(step.atoms.len().min(ids.len()))
}

/// The orders of steps, and the spans of groups.
fn pattern_lits(
    alloc: Global,
    encoded: &Encoded,
    property: &Property,
    ids: &[EventId],
) -> Result<Row<SymbolicLit>, AllocError>
    ensures { IfOk result (λ lits. lits ≡ pattern_lits encoded.now property.now ids.now) }
{
    let mut lits = Row::new(alloc);
    match push_pattern(&mut lits, encoded, property.pattern(), ids) {
        Ok(()) => Ok(lits),
        Err(error) => {
            drop(lits);
            Err(error)
        }
    }
}

fn push_pattern(
    lits: &mut Row<SymbolicLit>,
    encoded: &Encoded,
    pattern: &[PatternStep],
    ids: &[EventId],
) -> Result<(), AllocError>
    ensures { OnOk result (lits.new ≡ lits.old ++ orders_from encoded.now [] (groups_of pattern.now ids.now) ++ flat_map (spans_in encoded.now) (groups_of pattern.now ids.now)) }
{
    push_orders(lits, encoded, pattern, ids)?;
    push_spans(lits, encoded, pattern, ids)
}

/// Each event of a step before each event of the next step.
fn push_orders(
    lits: &mut Row<SymbolicLit>,
    encoded: &Encoded,
    pattern: &[PatternStep],
    ids: &[EventId],
) -> Result<(), AllocError>
    ensures { OnOk result (lits.new ≡ lits.old ++ orders_from encoded.now [] (groups_of pattern.now ids.now)) }
{
    let mut before: &[EventId] = &[];
    let mut rest = ids;
    for step in pattern {
        let (group, after) = cut(step, rest);
        push_orders_between(lits, encoded, before, group)?;
        before = group;
        rest = after;
    }
    Ok(())
}

fn push_orders_between(
    lits: &mut Row<SymbolicLit>,
    encoded: &Encoded,
    before: &[EventId],
    group: &[EventId],
) -> Result<(), AllocError>
    ensures { OnOk result (lits.new ≡ lits.old ++ flat_map (λ one. flat_map (order_lit encoded.now one) group.now) before.now) }
{
    for one in before {
        push_orders_after(lits, encoded, *one, group)?;
    }
    Ok(())
}

fn push_orders_after(
    lits: &mut Row<SymbolicLit>,
    encoded: &Encoded,
    one: EventId,
    group: &[EventId],
) -> Result<(), AllocError>
    ensures { OnOk result (lits.new ≡ lits.old ++ flat_map (order_lit encoded.now one) group.now) }
{
    for other in group {
        push_order(lits, encoded, one, *other)?;
    }
    Ok(())
}

fn push_order(
    lits: &mut Row<SymbolicLit>,
    encoded: &Encoded,
    one: EventId,
    other: EventId,
) -> Result<(), AllocError>
    ensures { OnOk result (lits.new ≡ lits.old ++ order_lit encoded.now one other) }
{
    if one.thread == other.thread {
        return Ok(());
    }
    let lit = ordered(encoded, one, other)?;
    lits.push(lit)
}

/// Each two events of a group of n are at most n - 1 apart.
fn push_spans(
    lits: &mut Row<SymbolicLit>,
    encoded: &Encoded,
    pattern: &[PatternStep],
    ids: &[EventId],
) -> Result<(), AllocError>
    ensures { OnOk result (lits.new ≡ lits.old ++ flat_map (spans_in encoded.now) (groups_of pattern.now ids.now)) }
{
    let mut rest = ids;
    for step in pattern {
        let (group, after) = cut(step, rest);
        push_spans_in(lits, encoded, group)?;
        rest = after;
    }
    Ok(())
}

fn push_spans_in(
    lits: &mut Row<SymbolicLit>,
    encoded: &Encoded,
    group: &[EventId],
) -> Result<(), AllocError>
    ensures { OnOk result (lits.new ≡ lits.old ++ spans_in encoded.now group.now) }
{
    let Ok(width) = u32::try_from(group.len().saturating_sub(1)) else {
        return Err(AllocError);
    };
    for one in group {
        push_spans_of(lits, encoded, width, *one, group)?;
    }
    Ok(())
}

fn push_spans_of(
    lits: &mut Row<SymbolicLit>,
    encoded: &Encoded,
    width: u32,
    one: EventId,
    group: &[EventId],
) -> Result<(), AllocError>
    ensures { OnOk result (lits.new ≡ lits.old ++ flat_map (span_lit encoded.now width one) group.now) }
{
    for other in group {
        push_span(lits, encoded, width, one, *other)?;
    }
    Ok(())
}

fn push_span(
    lits: &mut Row<SymbolicLit>,
    encoded: &Encoded,
    width: u32,
    one: EventId,
    other: EventId,
) -> Result<(), AllocError>
    ensures { OnOk result (lits.new ≡ lits.old ++ span_lit encoded.now width one other) }
{
    if one == other {
        return Ok(());
    }
    let first = encoded.number(one)?;
    let second = encoded.number(other)?;
    lits.push(holds(Symbol::Span(first, second, width)))
}

fn mention_lits(names: &mut QueryNames<'_>, lits: &[SymbolicLit]) -> Result<(), AllocError>
    ensures { OnOk result (AreMentioned names.old names.new (map (λ lit. lit.symbol) lits.now)) }
{
    for lit in lits {
        names.mention(lit.symbol)?;
    }
    Ok(())
}

/// On which side of each event of a group each event of another thread stands.
fn mention_sides(
    names: &mut QueryNames<'_>,
    encoded: &Encoded,
    pattern: &[PatternStep],
    ids: &[EventId],
) -> Result<(), AllocError>
    ensures { OnOk result (AreMentioned names.old names.new (flat_map (sides_of encoded.now) (groups_of pattern.now ids.now))) }
{
    let mut rest = ids;
    for step in pattern {
        let (group, after) = cut(step, rest);
        mention_sides_of(names, encoded, group)?;
        rest = after;
    }
    Ok(())
}

fn mention_sides_of(
    names: &mut QueryNames<'_>,
    encoded: &Encoded,
    group: &[EventId],
) -> Result<(), AllocError>
    ensures { OnOk result (AreMentioned names.old names.new (sides_of encoded.now group.now)) }
{
    if group.len() < 2 {
        return Ok(());
    }
    for id in group {
        mention_sides_at(names, encoded, *id)?;
    }
    Ok(())
}

fn mention_sides_at(
    names: &mut QueryNames<'_>,
    encoded: &Encoded,
    id: EventId,
) -> Result<(), AllocError>
    ensures { OnOk result (AreMentioned names.old names.new (flat_map (side encoded.now id) (points_of encoded.now))) }
{
    let number = encoded.number(id)?;
    let points = encoded.points();
    for p in points {
        mention_side(names, encoded, id, number, p)?;
    }
    Ok(())
}

fn mention_side(
    names: &mut QueryNames<'_>,
    encoded: &Encoded,
    id: EventId,
    number: u32,
    p: &Point,
) -> Result<(), AllocError>
    requires own { number ≡ number_in encoded.now id }
    requires other { p.now.number ≡ number_in encoded.now p.now.id }
    ensures { OnOk result (AreMentioned names.old names.new (side encoded.now id p.now)) }
{
    if id.thread == p.id.thread {
        return Ok(());
    }
    names.mention(order_of(number, p.number))
}

/// The order of two points, the lesser first.
fn order_of(one: u32, other: u32) -> Symbol
    ensures { result ≡ (if nat_lt one other then Order one other else Order other one) }
{
    if one < other {
        Symbol::Order(one, other)
    } else {
        Symbol::Order(other, one)
    }
}

/// The literals that the events are executed, and then these.
fn assumed(
    alloc: Global,
    names: &QueryNames<'_>,
    encoded: &Encoded,
    ids: &[EventId],
    lits: &[SymbolicLit],
) -> Result<Row<Lit>, AllocError>
    ensures { IfOk result (λ assumed. assumed ≡ map (numbered_lit (all_names names.now)) (executed_lits encoded.now ids.now ++ lits.now)) }
{
    let mut assumed = Row::new(alloc);
    assume_executed(&mut assumed, names, encoded, ids)?;
    assume_all(&mut assumed, names, lits)?;
    Ok(assumed)
}

fn assume_executed(
    assumed: &mut Row<Lit>,
    names: &QueryNames<'_>,
    encoded: &Encoded,
    ids: &[EventId],
) -> Result<(), AllocError>
    ensures { OnOk result (assumed.new ≡ assumed.old ++ map (numbered_lit (all_names names.now)) (executed_lits encoded.now ids.now)) }
{
    for id in ids {
        let number = encoded.number(*id)?;
        assumed.push(names.lit(holds(Symbol::Executed(number))))?;
    }
    Ok(())
}

fn assume_all(
    assumed: &mut Row<Lit>,
    names: &QueryNames<'_>,
    lits: &[SymbolicLit],
) -> Result<(), AllocError>
    ensures { OnOk result (assumed.new ≡ assumed.old ++ map (numbered_lit (all_names names.now)) lits.now) }
{
    for lit in lits {
        assumed.push(names.lit(*lit))?;
    }
    Ok(())
}
