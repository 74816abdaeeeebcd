ghost use Rattle.std.specs.Prelude.{◌≡◌, ◌+◌, [], ◌∷◌, ◌++◌, IfOk, OnOk, codes, decimal, flat_map, length, map};
ghost use Rattle.gp_text.specs.Spelling.{spelling};
ghost use Rattle.gp_window.specs.EventIds.{event_id_text};
ghost use Rattle.gp_writer.specs.Lines.{in_lines};
ghost use Rattle.gp_writer.specs.Steps.{step_lines};
ghost use Rattle.gp_linked.specs.Printed.{answer_lines, answers_lines, links_lines, summary_words};

use crate::answer::{LinkAnswer, LinkReport};
use crate::tally::tally_of;
use gp_base::Row;
use gp_certificate::Step;
use gp_window::EventId;
use gp_writer::{put_each_step, put_line, put_list};
use std::alloc::{AllocError, Global};

/// The text of a report: its lines of words, with one space between words and a newline after each line.
#[tactic(auto, using(gp_writer::specs::LinesLaws::lines_put))]
pub fn print_links(alloc: Global, report: &LinkReport) -> Result<Row<u8>, AllocError>
    ensures text { IfOk result (λ text. text ≡ spelling (links_lines report.now)) }
{
    let mut text = Vec::new(alloc);
    put_head(&mut text, report.budget)?;
    put_body(&mut text, report.links.as_slice())?;
    Ok(Row::from_vec(text))
}

#[tactic(auto, using(gp_writer::specs::LinesLaws::lines_put))]
fn put_head(text: &mut Vec<u8>, budget: u64) -> Result<(), AllocError>
    ensures { OnOk result (text.new.items ≡ text.old.items ++ spelling ((codes "gplink" ∷ decimal 1 ∷ []) ∷ (codes "budget" ∷ decimal budget ∷ []) ∷ [])) }
{
    put_line(text, b"gplink", &[1u64])?;
    put_line(text, b"budget", &[budget])
}

#[tactic(auto, using(gp_writer::specs::LinesLaws::lines_put))]
fn put_body(text: &mut Vec<u8>, links: &[LinkAnswer]) -> Result<(), AllocError>
    ensures { OnOk result (text.new.items ≡ text.old.items ++ spelling (answers_lines 1 links.now ++ summary_words links.now ∷ [])) }
{
    put_answers(text, links)?;
    put_summary(text, links)
}

// Puts what is told of each window, from the first on.
fn put_answers(text: &mut Vec<u8>, links: &[LinkAnswer]) -> Result<(), AllocError>
    ensures { OnOk result (text.new.items ≡ text.old.items ++ spelling (answers_lines 1 links.now)) }
{
    for (place, link) in links.iter().enumerate() {
        put_answer(text, place as u64 + 1, link)?;
    }
    Ok(())
}

fn put_answer(text: &mut Vec<u8>, k: u64, link: &LinkAnswer) -> Result<(), AllocError>
    ensures { OnOk result (text.new.items ≡ text.old.items ++ spelling (answer_lines k link.now)) }
{
    match link {
        LinkAnswer::Linked(schedule) => put_schedule(text, k, schedule.events.as_slice()),
        LinkAnswer::Unlinkable(certificate) => {
            put_certificate(text, k, certificate.steps.as_slice())
        }
        LinkAnswer::Undecided { from, to, .. } => {
            put_line(text, b"undecided", &[k, u64::from(*from), u64::from(*to)])
        }
        LinkAnswer::TooLarge { events, clauses } => {
            put_line(text, b"toolarge", &[k, *events, *clauses])
        }
    }
}

#[tactic(auto, using(gp_writer::specs::LinesLaws::lines_put))]
fn put_schedule(text: &mut Vec<u8>, k: u64, events: &[EventId]) -> Result<(), AllocError>
    ensures { OnOk result (text.new.items ≡ text.old.items ++ spelling ((codes "linked" ∷ decimal k ∷ decimal (length events.now) ∷ []) ∷ in_lines (map event_id_text events.now))) }
{
    put_line(text, b"linked", &[k, events.len() as u64])?;
    put_list(text, events)
}

#[tactic(auto, using(gp_writer::specs::LinesLaws::lines_put))]
fn put_certificate(text: &mut Vec<u8>, k: u64, steps: &[Step]) -> Result<(), AllocError>
    ensures { OnOk result (text.new.items ≡ text.old.items ++ spelling ((codes "unlinkable" ∷ decimal k ∷ decimal (length steps.now) ∷ []) ∷ flat_map step_lines steps.now)) }
{
    put_line(text, b"unlinkable", &[k, steps.len() as u64])?;
    put_each_step(text, steps)
}

fn put_summary(text: &mut Vec<u8>, links: &[LinkAnswer]) -> Result<(), AllocError>
    ensures { OnOk result (text.new.items ≡ text.old.items ++ spelling (summary_words links.now ∷ [])) }
{
    let tally = tally_of(links)?;
    let counts = [
        tally.linked,
        tally.unlinkable,
        tally.undecided,
        tally.too_large,
    ];
    put_line(text, b"summary", &counts)
}
