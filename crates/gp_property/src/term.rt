ghost use Rattle.std.specs.Prelude.{◌≡◌, IfOk};
ghost use Rattle.gp_property.specs.Term.{is_with, named_term, param_with, term_of, terms_of, thread_of, value_of};

use crate::property::{Term, ThreadTerm, ValueTerm};
use gp_base::Row;
use gp_text::{Name, Word, read_i64, read_u32};
use std::alloc::{AllocError, Global};

/// The term that a word spells: `*`, `$name` or a name.
pub fn term_of(word: &[u8]) -> Option<Term>
    ensures { result ≡ term_of word.now }
{
    if word == b"*".as_slice() {
        return Some(Term::Any);
    }
    named_term(word)
}

// A parameter after its `$`, else a name.
fn named_term(word: &[u8]) -> Option<Term>
    ensures { result ≡ named_term word.now }
{
    match word {
        [b'$', name @ ..] => param_with(Name::of(name)),
        _ => is_with(Name::of(word)),
    }
}

// The parameter of this name.
fn param_with(name: Option<Name>) -> Option<Term>
    ensures { result ≡ param_with name }
{
    match name {
        Some(name) => Some(Term::Param(name)),
        None => None,
    }
}

// This very name.
fn is_with(name: Option<Name>) -> Option<Term>
    ensures { result ≡ is_with name }
{
    match name {
        Some(name) => Some(Term::Is(name)),
        None => None,
    }
}

/// The words as terms, where each of them is one.
pub fn terms_of(alloc: Global, words: &[Word]) -> Result<Option<Row<Term>>, AllocError>
    ensures { IfOk result (λ terms. terms ≡ terms_of words.now) }
{
    let mut terms = Row::new(alloc);
    for word in words {
        match term_of(word.as_bytes()) {
            Some(term) => terms.push(term)?,
            None => return Ok(None),
        }
    }
    Ok(Some(terms))
}

/// A value, or `*`.
pub fn value_of(word: &[u8]) -> Option<ValueTerm>
    ensures { result ≡ value_of word.now }
{
    if word == b"*".as_slice() {
        return Some(ValueTerm::Any);
    }
    Some(ValueTerm::Is(read_i64(word)?))
}

/// The number of a thread, or `*`.
pub fn thread_of(word: &[u8]) -> Option<ThreadTerm>
    ensures { result ≡ thread_of word.now }
{
    if word == b"*".as_slice() {
        return Some(ThreadTerm::Any);
    }
    Some(ThreadTerm::Is(read_u32(word)?))
}
