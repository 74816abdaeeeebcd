ghost use Rattle.std.specs.Prelude.{◌≡◌, ◌≢◌, ◌^◌, ℕ, [], ◌∷◌, List, Option, IfErr, OnOk};
ghost use Rattle.gp_text.specs.Numbers.{if_below};
ghost use Rattle.gp_base.specs.Results.{with_prefix};
ghost use Rattle.gp_report.specs.Reading.{Gives, lit_of, lit_with, read_list, read_list_line, read_words};

use crate::checks::VARIABLES;
use crate::fault::{ReportFault, ReportRule};
use crate::reading::cursor::{ReportLine, ReportLines};
use gp_base::Row;
use gp_clause::Lit;
use gp_text::{Words, read_u32};
use gp_window::{EventId, event_id_of};
use std::alloc::Global;

// The most words of a list's line.
const LINE: u64 = 100;

// What one word of a list names.
pub(super) trait Listed: Sized + Drop {
    ghost of_word: { List ℕ → Option Self };

    fn of_word(word: &[u8]) -> Option<Self>
        ensures { result ≡ of_word word.now };
}

impl Listed for u32 {
    ghost use Rattle.gp_text.specs.Numbers.{small_number_of};

    ghost of_word = { small_number_of };

    fn of_word(word: &[u8]) -> Option<u32> {
        read_u32(word)
    }
}

impl Listed for EventId {
    ghost use Rattle.gp_window.specs.EventIds.{event_id_of};

    ghost of_word = { event_id_of };

    fn of_word(word: &[u8]) -> Option<EventId> {
        event_id_of(word)
    }
}

impl Listed for Lit {
    ghost use Rattle.gp_report.specs.Reading.{lit_of};

    ghost of_word = { lit_of };

    fn of_word(word: &[u8]) -> Option<Lit> {
        lit_of(word)
    }
}

// Reads a list of so many things, in lines of 100. The number of its last line is given too, or that of the line before
// where it has none.
pub(super) fn read_list<T: Listed>(
    alloc: Global,
    end: u32,
    before: u32,
    count: u64,
    lines: &mut ReportLines,
) -> Result<(Row<T>, u32), ReportFault>
    ensures { Gives result lines.new (read_list T.of_word end before count lines.old) }
{
    let mut things = Row::new(alloc);
    let mut last = before;
    let mut left = count;
    while left > 0 {
        let line = lines.take(end)?;
        last = line.number();
        push_line(&mut things, LINE.min(left), line)?;
        left = left.saturating_sub(LINE);
    }
    Ok((things, last))
}

// Adds the things that a line of a list names, which are to be so many.
#[tactic(auto, unfolding(crate::specs::Reading::read_list_line))]
fn push_line<T: Listed>(things: &mut Row<T>, due: u64, line: ReportLine) -> Result<(), ReportFault>
    ensures ok { OnOk result (with_prefix things.old (read_list_line T.of_word due line.entry) ≡ Ok things.new) }
    ensures bad { IfErr result (λ fault. fault ≢ ReportFault.Memory → read_list_line T.of_word due line.entry ≡ Err fault) }
{
    let number = line.number();
    let broken = line.breaks(ReportRule::Length);
    let before = things.len();
    if let Some((first, rest)) = line.split_first() {
        push_word(things, number, first)?;
        push_words(things, number, rest)?;
    }
    if (things.len() - before) as u64 == due {
        Ok(())
    } else {
        Err(broken)
    }
}

// Adds the things that words of the line of this number name.
pub(super) fn push_words<T: Listed>(
    things: &mut Row<T>,
    number: u32,
    words: Words,
) -> Result<(), ReportFault>
    ensures ok { OnOk result (with_prefix things.old (read_words T.of_word number words.entry) ≡ Ok things.new) }
    ensures bad { IfErr result (λ fault. fault ≢ ReportFault.Memory → read_words T.of_word number words.entry ≡ Err fault) }
{
    let mut words = words;
    while let Some(word) = words.next() {
        push_word(things, number, word)?;
    }
    Ok(())
}

fn push_word<T: Listed>(things: &mut Row<T>, number: u32, word: &[u8]) -> Result<(), ReportFault>
    ensures ok { OnOk result (with_prefix things.old (read_words T.of_word number (word.now ∷ [])) ≡ Ok things.new) }
    ensures bad { IfErr result (λ fault. fault ≢ ReportFault.Memory → read_words T.of_word number (word.now ∷ []) ≡ Err fault) }
{
    let thing = T::of_word(word).ok_or(ReportFault::Rule {
        line: number,
        rule: ReportRule::Form,
    })?;
    things.push(thing)?;
    Ok(())
}

fn lit_of(word: &[u8]) -> Option<Lit>
    ensures { result ≡ lit_of word.now }
{
    match word {
        [b'-', size @ ..] => lit_with(false, read_u32(size)?),
        _ => lit_with(true, read_u32(word)?),
    }
}

// The literal whose variable has this number, from 1 to 2^31 - 1.
fn lit_with(positive: bool, number: u32) -> Option<Lit>
    ensures { result ≡ lit_with positive (if_below (2 ^ 31) (Some number)) }
{
    if number == 0 || number > VARIABLES {
        return None;
    }
    Some(Lit {
        variable: number - 1,
        positive,
    })
}
