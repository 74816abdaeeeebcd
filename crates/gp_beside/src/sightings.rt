ghost use Rattle.std.specs.Prelude.{◌≡◌, ◌∷◌, ◌++◌, IfOk, OnOk};
ghost use Rattle.gp_text.specs.Spelling.{after_words, joined};
ghost use Rattle.gp_beside.specs.Sightings.{are_keywords, sighting_of, sighting_with, sightings_of};

use crate::fault::Cause;
use gp_base::Row;
use gp_place::Sighting;
use gp_text::{Line, Word, read_u32};
use std::alloc::{AllocError, Global};

/// What the lines of the file `confirmed` tell.
pub(crate) fn sightings_of(
    alloc: Global,
    lines: &[Line],
) -> Result<Result<Row<Sighting>, Cause>, AllocError>
    ensures { IfOk result (λ told. told ≡ sightings_of lines.now) }
{
    let mut sightings = Row::new(alloc);
    for line in lines {
        match sighting_of(alloc, line.words.as_slice())? {
            Some(sighting) => sightings.push(sighting)?,
            None => return Ok(Err(Cause::BadLine(line.number))),
        }
    }
    Ok(Ok(sightings))
}

fn sighting_of(alloc: Global, words: &[Word]) -> Result<Option<Sighting>, AllocError>
    ensures { IfOk result (λ sighting. sighting ≡ sighting_of words.now) }
{
    match words {
        [
            one,
            window,
            other,
            property,
            last,
            instance,
            seen,
            more @ ..,
        ] if are_keywords(one.as_bytes(), other.as_bytes(), last.as_bytes()) => {
            sighting_with(
                alloc,
                read_u32(window.as_bytes()),
                property.as_bytes(),
                read_u32(instance.as_bytes()),
                joined(alloc, seen.as_bytes(), more)?,
            )
        }
        _ => Ok(None),
    }
}

fn are_keywords(one: &[u8], other: &[u8], last: &[u8]) -> bool
    ensures { result ≡ are_keywords one.now other.now last.now }
{
    one == b"window".as_slice() && other == b"property".as_slice() && last == b"instance".as_slice()
}

fn sighting_with(
    alloc: Global,
    window: Option<u32>,
    property: &[u8],
    instance: Option<u32>,
    text: Row<u8>,
) -> Result<Option<Sighting>, AllocError>
    ensures { IfOk result (λ sighting. sighting ≡ sighting_with window property.now instance text) }
{
    let (Some(window), Some(instance)) = (window, instance) else {
        return Ok(None);
    };
    let property = Row::from_vec(Vec::from_slice(alloc, property)?);
    Ok(Some(Sighting {
        window,
        property,
        instance,
        text,
    }))
}

/// The words with one space between them.
#[tactic(auto, using(gp_text::specs::SpellingLaws::joined_after))]
fn joined(alloc: Global, first: &[u8], more: &[Word]) -> Result<Row<u8>, AllocError>
    ensures { IfOk result (λ text. text ≡ joined (first.now ∷ more.now)) }
{
    let mut text = Vec::from_slice(alloc, first)?;
    put_after(&mut text, more)?;
    Ok(Row::from_vec(text))
}

fn put_after(text: &mut Vec<u8>, words: &[Word]) -> Result<(), AllocError>
    ensures { OnOk result (text.new.items ≡ text.old.items ++ after_words words.now) }
{
    for word in words {
        text.push(b' ')?;
        text.extend_from_slice(word.as_bytes())?;
    }
    Ok(())
}
