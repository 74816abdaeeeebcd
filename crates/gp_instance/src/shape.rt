ghost use Rattle.std.specs.Prelude.{◌≡◌, ◌++◌, IfOk, OnOk, zip};
ghost use Rattle.std.specs.List.{list_all};
ghost use Rattle.gp_instance.specs.Shape.{allow_all, allows, allows_thread, allows_value, binding_of, bindings_in, bindings_of, has_shape, is_kind, names_of, terms_of};

use gp_base::Row;
use gp_property::{Shape, Term, ThreadTerm, ValueTerm};
use gp_text::Name;
use gp_trace::Event;
use std::alloc::{AllocError, Global};
use std::slice;

/// Whether an event has the kind, the names and the constants of a shape.
pub fn has_shape(shape: &Shape, event: &Event) -> bool
    ensures { result ≡ has_shape shape.now event.now }
{
    is_kind(shape, event) && allow_all(terms_of(shape), names_of(event))
}

/// What the parameters of a shape stand for in an event.
pub fn bindings_of(
    alloc: Global,
    shape: &Shape,
    event: &Event,
) -> Result<Row<(Name, Name)>, AllocError>
    ensures { IfOk result (λ bindings. bindings ≡ bindings_of shape.now event.now) }
{
    bindings_in(alloc, terms_of(shape), names_of(event))
}

/// The terms of a shape.
pub fn terms_of(shape: &Shape) -> &[Term]
    ensures { result.now ≡ terms_of shape.now }
{
    match shape {
        Shape::Read(name, _) => slice::from_ref(name),
        Shape::Write(name, _) => slice::from_ref(name),
        Shape::Acquire(name) => slice::from_ref(name),
        Shape::Release(name) => slice::from_ref(name),
        Shape::Begin(name) => slice::from_ref(name),
        Shape::End(name) => slice::from_ref(name),
        Shape::Op(_, objects) => objects.as_slice(),
        Shape::Start(_) | Shape::Join(_) => &[],
    }
}

/// The variable, lock, region or objects of an event.
pub fn names_of(event: &Event) -> &[Name]
    ensures { result.now ≡ names_of event.now }
{
    match event {
        Event::Read(name, _) => slice::from_ref(name),
        Event::Write(name, _) => slice::from_ref(name),
        Event::Acquire(name) => slice::from_ref(name),
        Event::Release(name) => slice::from_ref(name),
        Event::Begin(name) => slice::from_ref(name),
        Event::End(name) => slice::from_ref(name),
        Event::Op(operation) => operation.objects(),
        _ => &[],
    }
}

fn is_kind(shape: &Shape, event: &Event) -> bool
    ensures { result ≡ is_kind shape.now event.now }
{
    match (shape, event) {
        (Shape::Read(_, value), Event::Read(_, found)) => allows_value(value, *found),
        (Shape::Write(_, value), Event::Write(_, found)) => allows_value(value, *found),
        (Shape::Acquire(_), Event::Acquire(_)) => true,
        (Shape::Release(_), Event::Release(_)) => true,
        (Shape::Start(thread), Event::Start(found)) => allows_thread(thread, *found),
        (Shape::Join(thread), Event::Join(found)) => allows_thread(thread, *found),
        (Shape::Op(name, _), Event::Op(found)) => name == found.name(),
        (Shape::Begin(_), Event::Begin(_)) => true,
        (Shape::End(_), Event::End(_)) => true,
        _ => false,
    }
}

fn allows_value(term: &ValueTerm, found: i64) -> bool
    ensures { result ≡ allows_value term.now found }
{
    match term {
        ValueTerm::Is(value) => *value == found,
        ValueTerm::Any => true,
    }
}

fn allows_thread(term: &ThreadTerm, found: u32) -> bool
    ensures { result ≡ allows_thread term.now found }
{
    match term {
        ThreadTerm::Is(thread) => *thread == found,
        ThreadTerm::Any => true,
    }
}

fn allow_all(terms: &[Term], names: &[Name]) -> bool
    ensures { result ≡ allow_all terms.now names.now }
{
    terms.len() == names.len() && allow_each(terms, names)
}

fn allow_each(terms: &[Term], names: &[Name]) -> bool
    ensures { result ≡ list_all (λ pair. allows pair.0 pair.1) (zip terms.now names.now) }
{
    terms
        .iter()
        .zip(names)
        .all(|(term, name)| allows(term, name))
}

fn allows(term: &Term, found: &Name) -> bool
    ensures { result ≡ allows term.now found.now }
{
    match term {
        Term::Is(name) => name == found,
        Term::Param(_) | Term::Any => true,
    }
}

fn bindings_in(
    alloc: Global,
    terms: &[Term],
    names: &[Name],
) -> Result<Row<(Name, Name)>, AllocError>
    ensures { IfOk result (λ bindings. bindings ≡ bindings_in terms.now names.now) }
{
    let mut bindings = Row::new(alloc);
    let count = terms.len().min(names.len());
    for place in 0..count {
        bind(&mut bindings, &terms[place], &names[place])?;
    }
    Ok(bindings)
}

fn bind(bindings: &mut Row<(Name, Name)>, term: &Term, name: &Name) -> Result<(), AllocError>
    ensures { OnOk result (bindings.new ≡ bindings.old ++ binding_of (term.now, name.now)) }
{
    match term {
        Term::Param(parameter) => bindings.push((*parameter, *name)),
        Term::Is(_) | Term::Any => Ok(()),
    }
}
