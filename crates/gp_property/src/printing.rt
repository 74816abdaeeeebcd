ghost use Rattle.std.specs.Prelude.{◌≡◌, [], ◌∷◌, ◌++◌, Ok, IfOk, OnOk, codes, map};
ghost use Rattle.gp_text.specs.Spelling.{after_words, joined, spelling};
ghost use Rattle.gp_property.specs.Reading.{properties_of};
ghost use Rattle.gp_property.specs.Words.{atom_word, atoms_words, event_words, grouped_words, mark_word, pattern_words, property_lines, shape_words, steps_words, term_word, thread_word, value_word};

use crate::laws::property_again;
use crate::property::{Atom, EventDef, PatternStep, Property, Shape, Term, ThreadTerm, ValueTerm};
use gp_base::Row;
use gp_text::{Name, print_i64, print_u64};
use std::alloc::{AllocError, Global};

/// Prints the lines of a property, with one space between words and a newline after each line. The
/// text is read as this property alone.
pub fn print_property(alloc: Global, property: &Property) -> Result<Row<u8>, AllocError>
    ensures text { IfOk result (λ text. text ≡ spelling (property_lines property.now)) }
    ensures again { IfOk result (λ text. properties_of text ≡ Ok (property.now ∷ [])) }
{
    property_again();
    let mut text = Vec::new(alloc);
    text.extend_from_slice(b"property")?;
    put_word(&mut text, property.name().as_bytes())?;
    text.push(b'\n')?;
    put_events(&mut text, property.events())?;
    put_pattern(&mut text, property.pattern())?;
    Ok(Row::from_vec(text))
}

fn put_word(text: &mut Vec<u8>, word: &[u8]) -> Result<(), AllocError>
    ensures { OnOk result (text.new.items ≡ text.old.items ++ after_words (word.now ∷ [])) }
{
    text.push(b' ')?;
    text.extend_from_slice(word)
}

fn put_events(text: &mut Vec<u8>, events: &[EventDef]) -> Result<(), AllocError>
    ensures { OnOk result (text.new.items ≡ text.old.items ++ spelling (map event_words events.now)) }
{
    for event in events {
        put_event(text, event)?;
    }
    Ok(())
}

fn put_event(text: &mut Vec<u8>, event: &EventDef) -> Result<(), AllocError>
    ensures { OnOk result (text.new.items ≡ text.old.items ++ spelling (event_words event.now ∷ [])) }
{
    text.extend_from_slice(b"event")?;
    put_word(text, event.name.as_bytes())?;
    put_shape(text, &event.shape)?;
    text.push(b'\n')?;
    Ok(())
}

fn put_shape(text: &mut Vec<u8>, shape: &Shape) -> Result<(), AllocError>
    ensures { OnOk result (text.new.items ≡ text.old.items ++ after_words (shape_words shape.now)) }
{
    match shape {
        Shape::Read(name, value) => put_access(text, b"read", name, value),
        Shape::Write(name, value) => put_access(text, b"write", name, value),
        Shape::Acquire(name) => put_named(text, b"acquire", name),
        Shape::Release(name) => put_named(text, b"release", name),
        Shape::Start(thread) => put_thread(text, b"start", thread),
        Shape::Join(thread) => put_thread(text, b"join", thread),
        Shape::Op(name, objects) => put_op(text, name, objects.as_slice()),
        Shape::Begin(name) => put_named(text, b"begin", name),
        Shape::End(name) => put_named(text, b"end", name),
    }
}

fn put_access(
    text: &mut Vec<u8>,
    keyword: &[u8],
    name: &Term,
    value: &ValueTerm,
) -> Result<(), AllocError>
    ensures { OnOk result (text.new.items ≡ text.old.items ++ after_words (keyword.now ∷ term_word name.now ∷ value_word value.now ∷ [])) }
{
    put_word(text, keyword)?;
    put_term(text, name)?;
    put_value(text, value)
}

fn put_named(text: &mut Vec<u8>, keyword: &[u8], name: &Term) -> Result<(), AllocError>
    ensures { OnOk result (text.new.items ≡ text.old.items ++ after_words (keyword.now ∷ term_word name.now ∷ [])) }
{
    put_word(text, keyword)?;
    put_term(text, name)
}

fn put_thread(text: &mut Vec<u8>, keyword: &[u8], thread: &ThreadTerm) -> Result<(), AllocError>
    ensures { OnOk result (text.new.items ≡ text.old.items ++ after_words (keyword.now ∷ thread_word thread.now ∷ [])) }
{
    put_word(text, keyword)?;
    match thread {
        ThreadTerm::Is(number) => {
            text.push(b' ')?;
            print_u64(text, u64::from(*number))
        }
        ThreadTerm::Any => put_word(text, b"*"),
    }
}

fn put_op(text: &mut Vec<u8>, name: &Name, objects: &[Term]) -> Result<(), AllocError>
    ensures { OnOk result (text.new.items ≡ text.old.items ++ after_words (codes "op" ∷ name.now ∷ map term_word objects.now)) }
{
    put_word(text, b"op")?;
    put_word(text, name.as_bytes())?;
    put_terms(text, objects)
}

fn put_terms(text: &mut Vec<u8>, terms: &[Term]) -> Result<(), AllocError>
    ensures { OnOk result (text.new.items ≡ text.old.items ++ after_words (map term_word terms.now)) }
{
    for term in terms {
        put_term(text, term)?;
    }
    Ok(())
}

fn put_term(text: &mut Vec<u8>, term: &Term) -> Result<(), AllocError>
    ensures { OnOk result (text.new.items ≡ text.old.items ++ after_words (term_word term.now ∷ [])) }
{
    match term {
        Term::Is(name) => put_word(text, name.as_bytes()),
        Term::Param(name) => {
            text.extend_from_slice(b" $")?;
            text.extend_from_slice(name.as_bytes())
        }
        Term::Any => put_word(text, b"*"),
    }
}

fn put_value(text: &mut Vec<u8>, value: &ValueTerm) -> Result<(), AllocError>
    ensures { OnOk result (text.new.items ≡ text.old.items ++ after_words (value_word value.now ∷ [])) }
{
    match value {
        ValueTerm::Is(value) => {
            text.push(b' ')?;
            print_i64(text, *value)
        }
        ValueTerm::Any => put_word(text, b"*"),
    }
}

fn put_pattern(text: &mut Vec<u8>, pattern: &[PatternStep]) -> Result<(), AllocError>
    ensures { OnOk result (text.new.items ≡ text.old.items ++ spelling (pattern_words pattern.now ∷ [])) }
{
    text.extend_from_slice(b"pattern")?;
    put_steps(text, pattern)?;
    text.push(b'\n')?;
    Ok(())
}

fn put_steps(text: &mut Vec<u8>, steps: &[PatternStep]) -> Result<(), AllocError>
    ensures { OnOk result (text.new.items ≡ text.old.items ++ after_words (steps_words steps.now)) }
{
    for step in steps {
        put_step(text, step)?;
    }
    Ok(())
}

fn put_step(text: &mut Vec<u8>, step: &PatternStep) -> Result<(), AllocError>
    ensures { OnOk result (text.new.items ≡ text.old.items ++ after_words (atoms_words step.now.atoms)) }
{
    let Some((first, rest)) = step.atoms.as_slice().split_first() else {
        return Ok(());
    };
    put_atom(text, first)?;
    put_grouped(text, rest)
}

fn put_grouped(text: &mut Vec<u8>, atoms: &[Atom]) -> Result<(), AllocError>
    ensures { OnOk result (text.new.items ≡ text.old.items ++ after_words (grouped_words atoms.now)) }
{
    for atom in atoms {
        put_word(text, b"||")?;
        put_atom(text, atom)?;
    }
    Ok(())
}

fn put_atom(text: &mut Vec<u8>, atom: &Atom) -> Result<(), AllocError>
    ensures { OnOk result (text.new.items ≡ text.old.items ++ after_words (atom_word atom.now ∷ [])) }
{
    put_word(text, atom.event.as_bytes())?;
    text.push(b'@')?;
    text.extend_from_slice(atom.thread_var.as_bytes())?;
    put_mark(text, b'<', atom.opens)?;
    put_mark(text, b'>', atom.closes)
}

fn put_mark(text: &mut Vec<u8>, mark: u8, number: Option<u8>) -> Result<(), AllocError>
    ensures { OnOk result (text.new.items ≡ text.old.items ++ mark_word mark number) }
{
    let Some(number) = number else {
        return Ok(());
    };
    text.push(mark)?;
    print_u64(text, u64::from(number))
}
