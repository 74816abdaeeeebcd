ghost use Rattle.std.specs.Prelude.{◌≡◌, IfOk};
ghost use Rattle.gp_property.specs.Shape.{access_of, definition_of, named_shape_of, op_of, plain_shape_of, shape_of, thread_shape_of};

use crate::property::{EventDef, Shape, Term, ThreadTerm, ValueTerm};
use crate::term::{term_of, terms_of, thread_of, value_of};
use gp_base::Row;
use gp_text::{Name, Word};
use std::alloc::{AllocError, Global};

/// The most objects of an operation.
const MOST_OBJECTS: usize = 4;

/// The event that the words after `event` define, `None` where they define none.
pub fn definition_of(alloc: Global, words: &[Word]) -> Result<Option<EventDef>, AllocError>
    ensures { IfOk result (λ definition. definition ≡ definition_of words.now) }
{
    let Some((name, shape)) = words.split_first() else {
        return Ok(None);
    };
    let Some(name) = Name::of(name.as_bytes()) else {
        return Ok(None);
    };
    match shape_of(alloc, shape)? {
        Some(shape) => Ok(Some(EventDef { name, shape })),
        None => Ok(None),
    }
}

fn shape_of(alloc: Global, words: &[Word]) -> Result<Option<Shape>, AllocError>
    ensures { IfOk result (λ shape. shape ≡ shape_of words.now) }
{
    let Some((first, rest)) = words.split_first() else {
        return Ok(None);
    };
    if first.as_bytes() == b"op".as_slice() {
        op_of(alloc, rest)
    } else {
        Ok(plain_shape_of(first.as_bytes(), rest))
    }
}

fn op_of(alloc: Global, words: &[Word]) -> Result<Option<Shape>, AllocError>
    ensures { IfOk result (λ shape. shape ≡ op_of words.now) }
{
    let Some((name, objects)) = words.split_first() else {
        return Ok(None);
    };
    if objects.len() > MOST_OBJECTS {
        return Ok(None);
    }
    let Some(name) = Name::of(name.as_bytes()) else {
        return Ok(None);
    };
    match terms_of(alloc, objects)? {
        Some(objects) => Ok(Some(Shape::Op(name, objects))),
        None => Ok(None),
    }
}

fn plain_shape_of(keyword: &[u8], words: &[Word]) -> Option<Shape>
    ensures { result ≡ plain_shape_of keyword.now words.now }
{
    match words {
        [word] => match thread_shape_of(keyword, thread_of(word.as_bytes())) {
            Some(shape) => Some(shape),
            None => named_shape_of(keyword, term_of(word.as_bytes())),
        },
        [name, value] => access_of(
            keyword,
            term_of(name.as_bytes()),
            value_of(value.as_bytes()),
        ),
        _ => None,
    }
}

fn named_shape_of(keyword: &[u8], name: Option<Term>) -> Option<Shape>
    ensures { result ≡ named_shape_of keyword.now name }
{
    let name = name?;
    if keyword == b"acquire".as_slice() {
        Some(Shape::Acquire(name))
    } else if keyword == b"release".as_slice() {
        Some(Shape::Release(name))
    } else if keyword == b"begin".as_slice() {
        Some(Shape::Begin(name))
    } else if keyword == b"end".as_slice() {
        Some(Shape::End(name))
    } else {
        None
    }
}

fn access_of(keyword: &[u8], name: Option<Term>, value: Option<ValueTerm>) -> Option<Shape>
    ensures { result ≡ access_of keyword.now name value }
{
    let (name, value) = (name?, value?);
    if keyword == b"read".as_slice() {
        Some(Shape::Read(name, value))
    } else if keyword == b"write".as_slice() {
        Some(Shape::Write(name, value))
    } else {
        None
    }
}

fn thread_shape_of(keyword: &[u8], thread: Option<ThreadTerm>) -> Option<Shape>
    ensures { result ≡ thread_shape_of keyword.now thread }
{
    let thread = thread?;
    if keyword == b"start".as_slice() {
        Some(Shape::Start(thread))
    } else if keyword == b"join".as_slice() {
        Some(Shape::Join(thread))
    } else {
        None
    }
}
