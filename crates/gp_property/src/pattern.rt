ghost use Rattle.std.specs.Prelude.{◌≡◌, IfOk};
ghost use Rattle.gp_property.specs.Pattern.{finished, next_word, no_pattern, pattern_of, with_atom, with_bar};

use crate::atom::atom_of;
use crate::property::{Atom, PatternStep};
use gp_base::Row;
use gp_text::Word;
use std::alloc::{AllocError, Global};

/// A pattern of which some words are read.
#[derive(Drop)]
pub struct PatternDraft {
    /// The steps that are over.
    pub steps: Row<PatternStep>,
    /// The atoms of the last step so far.
    pub group: Row<Atom>,
    /// Whether the next word has to be an atom of this step.
    pub atom_due: bool,
}

/// The pattern that the words after `pattern` spell, `None` where they spell none.
pub fn pattern_of(alloc: Global, words: &[Word]) -> Result<Option<Row<PatternStep>>, AllocError>
    ensures { IfOk result (λ pattern. pattern ≡ pattern_of words.now) }
{
    let mut draft = no_pattern(alloc);
    for word in words {
        match next_word(alloc, draft, word.as_bytes())? {
            Some(next) => draft = next,
            None => return Ok(None),
        }
    }
    finish(draft)
}

fn no_pattern(alloc: Global) -> PatternDraft
    ensures { result ≡ no_pattern }
{
    PatternDraft {
        steps: Row::new(alloc),
        group: Row::new(alloc),
        atom_due: true,
    }
}

fn next_word(
    alloc: Global,
    draft: PatternDraft,
    word: &[u8],
) -> Result<Option<PatternDraft>, AllocError>
    ensures { IfOk result (λ next. next ≡ next_word draft word.now) }
{
    if word == b"||".as_slice() {
        return Ok(with_bar(draft));
    }
    match atom_of(word) {
        Some(atom) => Ok(Some(with_atom(alloc, draft, atom)?)),
        None => Ok(None),
    }
}

fn with_bar(draft: PatternDraft) -> Option<PatternDraft>
    ensures { result ≡ with_bar draft }
{
    if draft.atom_due {
        return None;
    }
    Some(PatternDraft {
        atom_due: true,
        ..draft
    })
}

fn with_atom(alloc: Global, draft: PatternDraft, atom: Atom) -> Result<PatternDraft, AllocError>
    ensures { IfOk result (λ next. with_atom draft (Some atom) ≡ Some next) }
{
    let PatternDraft {
        mut steps,
        mut group,
        atom_due,
    } = draft;
    if atom_due {
        group.push(atom)?;
        return Ok(PatternDraft {
            steps,
            group,
            atom_due: false,
        });
    }
    steps.push(PatternStep { atoms: group })?;
    let mut group = Row::new(alloc);
    group.push(atom)?;
    Ok(PatternDraft {
        steps,
        group,
        atom_due: false,
    })
}

fn finish(draft: PatternDraft) -> Result<Option<Row<PatternStep>>, AllocError>
    ensures { IfOk result (λ pattern. pattern ≡ finished (Some draft)) }
{
    if draft.atom_due {
        return Ok(None);
    }
    let PatternDraft {
        mut steps,
        group,
        ..
    } = draft;
    steps.push(PatternStep { atoms: group })?;
    Ok(Some(steps))
}
