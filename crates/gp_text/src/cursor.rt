ghost use Rattle.std.specs.Prelude.{◌≡◌, ◌==◌, ◌+◌, ◌-◌, ◌^◌, ◌<◌, ◌≤◌, [], ◌∷◌, IfSome, MatchOption, length};
ghost use Rattle.gp_text.specs.Line.{words_of};
ghost use Rattle.gp_text.specs.Lines.{is_passed_over, kept_from, kept_lines_of, parts_of};

use crate::parts::cut;
use std::marker::Model;

/// The words that are left of a line, seen as their list. It takes no memory.
#[derive(Drop)]
pub struct Words<'a> {
    rest: &'a [u8],
}

impl<'a> Model for Words<'a> {
    ghost use Rattle.std.specs.Prelude.{List, ℕ};
    ghost use Rattle.gp_text.specs.Line.{words_of};

    ghost Value = { List (List ℕ) };

    ghost view = { λ words. words_of words.rest.now };
}

impl<'a> Words<'a> {
    /// The words of a line.
    pub fn of(line: &'a [u8]) -> Words<'a>
        ensures { result ≡ words_of line.now }
    {
        Words { rest: line }
    }

    /// Takes the next word.
    pub fn next(&mut self) -> Option<&'a [u8]>
        ensures { MatchOption result
            ((self.old ≡ []) × (self.new ≡ []))
            (λ word. self.old ≡ word.now ∷ self.new) }
    {
        let (word, after) = cut_word(self.rest)?;
        self.rest = after;
        Some(word)
    }

    /// Whether no word is left.
    pub fn is_empty(&self) -> bool
        ensures { result ≡ (length self.now == 0) }
    {
        cut_word(self.rest).is_none()
    }
}

/// The first word of a line, and what follows it.
fn cut_word(line: &[u8]) -> Option<(&[u8], &[u8])>
    ensures { MatchOption result
        (words_of line.now ≡ [])
        (λ r. words_of line.now ≡ r.0.now ∷ words_of r.1.now) }
{
    let mut rest = line;
    while let Some((word, after)) = cut(rest, b' ') {
        if !word.is_empty() {
            return Some((word, after));
        }
        rest = after;
    }
    if rest.is_empty() {
        return None;
    }
    Some((rest, &[]))
}

/// A line of a text that is not passed over: its number, from 1, and its words.
#[derive(Drop)]
pub struct TextLine<'a> {
    pub number: u32,
    pub words: Words<'a>,
}

/// The lines that are left of a text, but for those that are passed over, seen as their list. It
/// takes no memory, and tells no fault of the text.
#[derive(Drop)]
pub struct Lines<'a> {
    rest: &'a [u8],
    number: u32,
}

impl<'a> Model for Lines<'a> {
    ghost use Rattle.std.specs.Prelude.{List, ◌+◌, ◌<◌, ◌^◌, length};
    ghost use Rattle.gp_text.specs.declared.line.Line.{Line};
    ghost use Rattle.gp_text.specs.Lines.{kept_from, parts_of};

    ghost Value = { List Line };

    ghost view = { λ lines. kept_from lines.number (parts_of lines.rest.now) };

    ghost invariant = { λ lines. lines.number + length lines.rest.now < 2 ^ 32 };
}

impl<'a> Lines<'a> {
    /// The lines of a text.
    pub fn of(bytes: &'a [u8]) -> Lines<'a>
        requires { length bytes.now < 2 ^ 32 - 1 }
        ensures { result ≡ kept_lines_of bytes.now }
    {
        Lines {
            rest: bytes,
            number: 1,
        }
    }

    /// Takes the next line.
    pub fn next(&mut self) -> Option<TextLine<'a>>
        ensures { MatchOption result
            ((self.old ≡ []) × (self.new ≡ []))
            (λ line. self.old ≡ record { number = line.number; words = line.words } ∷ self.new) }
    {
        let (number, line, after) = cut_line(self.rest, self.number)?;
        self.rest = after;
        self.number = number + 1;
        Some(TextLine {
            number,
            words: Words::of(line),
        })
    }

    /// Whether no line is left.
    pub fn is_empty(&self) -> bool
        ensures { result ≡ (length self.now == 0) }
    {
        cut_line(self.rest, self.number).is_none()
    }
}

/// The first line of a text that is not passed over, its number, and what follows it; the first
/// line of the text has this number.
fn cut_line(text: &[u8], number: u32) -> Option<(u32, &[u8], &[u8])>
    requires { number + length text.now < 2 ^ 32 }
    ensures parts { MatchOption result
        (kept_from number (parts_of text.now) ≡ [])
        (λ r. kept_from number (parts_of text.now)
        ≡ record { number = r.0; words = words_of r.1.now } ∷ kept_from (r.0 + 1) (parts_of r.2.now)) }
    ensures counted { IfSome result (λ r. r.0 + 1 + length r.2.now ≤ number + length text.now) }
{
    let mut rest = text;
    let mut number = number;
    while let Some((line, after)) = cut(rest, b'\n') {
        if !is_passed_over(line) {
            return Some((number, line, after));
        }
        rest = after;
        number += 1;
    }
    if rest.is_empty() || is_passed_over(rest) {
        return None;
    }
    Some((number, rest, &[]))
}

fn is_passed_over(line: &[u8]) -> bool
    ensures { result ≡ is_passed_over (words_of line.now) }
{
    match cut_word(line) {
        None => true,
        Some((word, _)) => word.first() == Some(&b'#'),
    }
}
