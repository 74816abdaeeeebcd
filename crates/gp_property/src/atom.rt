ghost use Rattle.std.specs.Prelude.{◌≡◌, Some, None, MatchOption};
ghost use Rattle.gp_property.specs.Atom.{atom_of, closing_atom, cut_at, halves, opening_atom, plain_atom, region_of};

use crate::property::Atom;
use gp_text::{Name, cut};

/// The atom that a word spells: `event@threadvar`, and then `<N` or `>N` where it marks a region.
pub fn atom_of(word: &[u8]) -> Option<Atom>
    ensures { result ≡ atom_of word.now }
{
    let (event, target) = halves(word, b'@')?;
    if let Some((thread, number)) = halves(target, b'<') {
        return opening_atom(Name::of(event), Name::of(thread), region_of(number));
    }
    if let Some((thread, number)) = halves(target, b'>') {
        return closing_atom(Name::of(event), Name::of(thread), region_of(number));
    }
    plain_atom(Name::of(event), Name::of(target))
}

// The two sides of the one byte `at`.
fn halves(bytes: &[u8], at: u8) -> Option<(&[u8], &[u8])>
    ensures { MatchOption result
        (halves (cut_at at bytes.now) ≡ None)
        (λ r. halves (cut_at at bytes.now) ≡ Some (r.0.now, r.1.now)) }
{
    let (front, back) = cut(bytes, at)?;
    match cut(back, at) {
        Some(_) => None,
        None => Some((front, back)),
    }
}

fn plain_atom(event: Option<Name>, thread: Option<Name>) -> Option<Atom>
    ensures { result ≡ plain_atom event thread }
{
    Some(Atom {
        event: event?,
        thread_var: thread?,
        opens: None,
        closes: None,
    })
}

fn opening_atom(event: Option<Name>, thread: Option<Name>, number: Option<u8>) -> Option<Atom>
    ensures { result ≡ opening_atom event thread number }
{
    Some(Atom {
        event: event?,
        thread_var: thread?,
        opens: Some(number?),
        closes: None,
    })
}

fn closing_atom(event: Option<Name>, thread: Option<Name>, number: Option<u8>) -> Option<Atom>
    ensures { result ≡ closing_atom event thread number }
{
    Some(Atom {
        event: event?,
        thread_var: thread?,
        opens: None,
        closes: Some(number?),
    })
}

fn region_of(bytes: &[u8]) -> Option<u8>
    ensures { result ≡ region_of bytes.now }
{
    match bytes {
        [digit @ b'1'..=b'9'] => Some(*digit - b'0'),
        _ => None,
    }
}
