ghost use Rattle.std.specs.Prelude.{◌≡◌};
ghost use Rattle.gp_property.specs.Property.{IsProperty};

use gp_base::Row;
use gp_text::Name;
use std::alloc::AllocError;
use std::marker::Model;

/// The most properties of a file.
pub const MOST_PROPERTIES: usize = 64;

/// The most events that a property defines.
pub const MOST_EVENTS: usize = 16;

/// The most atoms of a pattern.
pub const MOST_ATOMS: usize = 6;

/// The most atoms of one step.
pub const MOST_GROUPED: usize = 4;

/// What stands for a name in the shape of an event.
#[derive(Clone, Copy, PartialEq, Eq)]
pub enum Term {
    /// This very name.
    Is(Name),
    /// A parameter: the same name wherever the pattern's atoms have it.
    Param(Name),
    /// Any name, each time another one if need be.
    Any,
}

/// What stands for a value in the shape of an event.
#[derive(Clone, Copy, PartialEq, Eq)]
pub enum ValueTerm {
    Is(i64),
    Any,
}

/// What stands for a thread that is started or joined.
#[derive(Clone, Copy, PartialEq, Eq)]
pub enum ThreadTerm {
    Is(u32),
    Any,
}

/// What an event has to be like.
#[derive(Drop)]
pub enum Shape {
    Read(Term, ValueTerm),
    Write(Term, ValueTerm),
    Acquire(Term),
    Release(Term),
    Start(ThreadTerm),
    Join(ThreadTerm),
    /// The operation of this name on 0 to 4 objects.
    Op(Name, Row<Term>),
    Begin(Term),
    End(Term),
}

impl Clone for Shape {
    ghost is_clone = { λ shape copy. copy ≡ shape };

    fn clone(&self) -> Result<Shape, AllocError> {
        match self {
            Shape::Read(name, value) => Ok(Shape::Read(*name, *value)),
            Shape::Write(name, value) => Ok(Shape::Write(*name, *value)),
            Shape::Acquire(name) => Ok(Shape::Acquire(*name)),
            Shape::Release(name) => Ok(Shape::Release(*name)),
            Shape::Start(thread) => Ok(Shape::Start(*thread)),
            Shape::Join(thread) => Ok(Shape::Join(*thread)),
            Shape::Op(name, objects) => Ok(Shape::Op(*name, objects.clone()?)),
            Shape::Begin(name) => Ok(Shape::Begin(*name)),
            Shape::End(name) => Ok(Shape::End(*name)),
        }
    }
}

/// A name for the events of a shape.
#[derive(Drop)]
pub struct EventDef {
    pub name: Name,
    pub shape: Shape,
}

/// One event of a pattern.
#[derive(Drop)]
pub struct Atom {
    /// The name of an event that the property defines.
    pub event: Name,
    /// Atoms of one thread variable run in one thread, and atoms of different ones in different threads.
    pub thread_var: Name,
    /// The number, 1 to 9, of the region that this atom opens.
    pub opens: Option<u8>,
    /// The number of the region that this atom closes. No atom both opens and closes.
    pub closes: Option<u8>,
}

/// One step of a pattern: an atom, or a group of 2 to 4 whose events come next to one another.
#[derive(Drop)]
pub struct PatternStep {
    pub atoms: Row<Atom>,
}

/// A pattern of events to look for: 1 to 6 atoms in steps of at most 4, whose events and regions fit.
#[derive(Drop)]
pub struct Property {
    name: Name,
    events: Row<EventDef>,
    pattern: Row<PatternStep>,
}

impl Model for Property {
    ghost use Rattle.gp_property.specs.PropertyForm.{PropertyForm};
    ghost use Rattle.gp_property.specs.Property.{IsProperty};

    ghost Value = { PropertyForm };

    ghost view = { λ p. record { name = p.name; events = p.events; pattern = p.pattern } };

    ghost invariant = { λ p. IsProperty (record { name = p.name; events = p.events; pattern = p.pattern }) };
}

impl Property {
    // The property of these parts.
    pub(crate) fn new(name: Name, events: Row<EventDef>, pattern: Row<PatternStep>) -> Property
        requires { IsProperty (record { name = name; events = events; pattern = pattern }) }
        ensures { result ≡ record { name = name; events = events; pattern = pattern } }
    {
        Property {
            name,
            events,
            pattern,
        }
    }

    /// The name, by which no other property of a file goes.
    pub fn name(&self) -> &Name
        ensures value { result.now ≡ self.now.name }
        ensures property { IsProperty self.now }
    {
        &self.name
    }

    /// A law: a property keeps the rules of the language.
    pub fn keeps_rules(&self)
        ensures { IsProperty self.now }
    {
        let _ = &self.name;
    }

    /// The events that the pattern speaks of, at most 16, each of another name.
    pub fn events(&self) -> &[EventDef]
        ensures value { result.now ≡ self.now.events }
        ensures property { IsProperty self.now }
    {
        self.events.as_slice()
    }

    /// The steps in the order in which they happen.
    pub fn pattern(&self) -> &[PatternStep]
        ensures value { result.now ≡ self.now.pattern }
        ensures property { IsProperty self.now }
    {
        self.pattern.as_slice()
    }
}
