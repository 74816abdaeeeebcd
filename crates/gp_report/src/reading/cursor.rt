ghost use Rattle.std.specs.Prelude.{◌≡◌, [], ◌∷◌, MatchOption};
ghost use Rattle.gp_report.specs.Reading.{Gives, at_end, begins_with, is_at, next_line, words_after};

use crate::fault::{ReportFault, ReportRule};
use gp_text::{Lines, TextLine, Words};
use std::marker::Model;

// A line of a report, taken apart into its first word and the words behind it.
#[derive(Drop)]
pub(super) struct ReportLine<'a> {
    number: u32,
    first: Option<&'a [u8]>,
    rest: Words<'a>,
}

impl<'a> Model for ReportLine<'a> {
    ghost use Rattle.std.specs.Prelude.{option_map};
    ghost use Rattle.gp_text.specs.declared.line.Line.{Line};
    ghost use Rattle.gp_report.specs.Reading.{before};

    ghost Value = { Line };

    ghost view = { λ line. record { number = line.number; words = before (option_map (λ word. word.now) line.first) line.rest } };
}

impl<'a> ReportLine<'a> {
    fn of(line: TextLine<'a>) -> ReportLine<'a>
        ensures { result ≡ record { number = line.entry.number; words = line.entry.words } }
    {
        let mut rest = line.words;
        let first = rest.next();
        ReportLine {
            number: line.number,
            first,
            rest,
        }
    }

    // The number of the line in its text, from 1.
    pub(super) fn number(&self) -> u32
        ensures { result ≡ self.now.number }
    {
        self.number
    }

    // The line breaks this rule.
    pub(super) fn breaks(&self, rule: ReportRule) -> ReportFault
        ensures { result ≡ ReportFault.Rule self.now.number rule }
    {
        ReportFault::Rule {
            line: self.number,
            rule,
        }
    }

    // Whether the line begins with this word.
    pub(super) fn begins_with(&self, keyword: &[u8]) -> bool
        ensures { result ≡ begins_with keyword.now self.now.words }
    {
        match self.first {
            Some(word) => word == keyword,
            None => false,
        }
    }

    // The first word, and the words behind it.
    pub(super) fn split_first(self) -> Option<(&'a [u8], Words<'a>)>
        ensures { MatchOption result
            (self.entry.words ≡ [])
            (λ r. self.entry.words ≡ r.0.now ∷ r.1) }
    {
        let first = self.first?;
        Some((first, self.rest))
    }

    // The words behind this one, where the line begins with it.
    pub(super) fn words_after(self, keyword: &[u8]) -> Option<Words<'a>>
        ensures { result ≡ words_after keyword.now self.entry.words }
    {
        let (first, rest) = self.split_first()?;
        if first == keyword { Some(rest) } else { None }
    }
}

// The lines that are left of a report's text. The next one can be looked at before it is taken.
#[derive(Drop)]
pub(super) struct ReportLines<'a> {
    next: Option<ReportLine<'a>>,
    rest: Lines<'a>,
}

impl<'a> Model for ReportLines<'a> {
    ghost use Rattle.std.specs.Prelude.{List};
    ghost use Rattle.gp_text.specs.declared.line.Line.{Line};
    ghost use Rattle.gp_report.specs.Reading.{before};

    ghost Value = { List Line };

    ghost view = { λ lines. before lines.next lines.rest };
}

impl<'a> ReportLines<'a> {
    pub(super) fn of(lines: Lines<'a>) -> ReportLines<'a>
        ensures { result ≡ lines.entry }
    {
        let mut rest = lines;
        let next = rest.next().map(ReportLine::of);
        ReportLines { next, rest }
    }

    // Takes the next line of a text that ends at this line.
    pub(super) fn take(&mut self, end: u32) -> Result<ReportLine<'a>, ReportFault>
        ensures { Gives result self.new (next_line end self.old) }
    {
        let following = self.rest.next().map(ReportLine::of);
        let next = std::mem::replace(&mut self.next, following);
        next.ok_or(ReportFault::Rule {
            line: end,
            rule: ReportRule::End,
        })
    }

    // Whether the next line begins with this word.
    pub(super) fn is_at(&self, keyword: &[u8]) -> bool
        ensures { result ≡ is_at keyword.now self.now }
    {
        match &self.next {
            Some(line) => line.begins_with(keyword),
            None => false,
        }
    }

    // Refuses a line that is left.
    pub(super) fn finish(&self) -> Result<(), ReportFault>
        ensures { result ≡ at_end self.now }
    {
        match &self.next {
            Some(line) => Err(line.breaks(ReportRule::After)),
            None => Ok(()),
        }
    }
}
