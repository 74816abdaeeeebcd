ghost use Rattle.std.specs.Prelude.{◌≡◌, ◌≤◌, ◌++◌, Err, OnErr, OnOk};
ghost use Rattle.gp_outside.specs.Faults.{Rose};
ghost use Rattle.gp_outside.specs.Sinks.{Appends, AppendsFront};
ghost use Rattle.gp_show.specs.Show.{answers_text, before_text, body_text, show_text, submitted_answers};
ghost use Rattle.gp_words.specs.Showing.{show_form};

use crate::foot::{put_count, put_foot, put_unshown};
use crate::head::put_head;
use crate::passes::put_passes;
use crate::shown::Shown;
use gp_checker::Checked;
use gp_outside::{PutFault, Sink};
use std::alloc::Global;

/// Writes what is shown of a report that was checked.
pub fn put_report<S: Sink>(alloc: Global, sink: &mut S, shown: &Shown<'_>) -> Result<(), PutFault>
    ensures later { S.faults sink.old ≤ S.faults sink.new }
    ensures ok { OnOk result (Appends (S.written sink.old) (S.written sink.new) (show_text (show_form shown.now.command) shown.now.submission shown.now.noted shown.now.checked)) }
    ensures err { OnErr result (AppendsFront (S.written sink.old) (S.written sink.new) (show_text (show_form shown.now.command) shown.now.submission shown.now.noted shown.now.checked)) }
    ensures failed { result ≡ Err PutFault.Failed → Rose (S.faults sink.old) (S.faults sink.new) }
{
    put_before_foot(alloc, sink, shown)?;
    put_foot(alloc, sink, shown.command.style)
}

fn put_before_foot<S: Sink>(alloc: Global, sink: &mut S, shown: &Shown<'_>) -> Result<(), PutFault>
    ensures later { S.faults sink.old ≤ S.faults sink.new }
    ensures ok { OnOk result (Appends (S.written sink.old) (S.written sink.new) (before_text (show_form shown.now.command).style shown.now.submission shown.now.noted shown.now.checked ++ body_text (show_form shown.now.command) shown.now.submission shown.now.noted shown.now.checked)) }
    ensures err { OnErr result (AppendsFront (S.written sink.old) (S.written sink.new) (before_text (show_form shown.now.command).style shown.now.submission shown.now.noted shown.now.checked ++ body_text (show_form shown.now.command) shown.now.submission shown.now.noted shown.now.checked)) }
    ensures failed { result ≡ Err PutFault.Failed → Rose (S.faults sink.old) (S.faults sink.new) }
{
    put_head(alloc, sink, shown)?;
    put_body(alloc, sink, shown)
}

fn put_body<S: Sink>(alloc: Global, sink: &mut S, shown: &Shown<'_>) -> Result<(), PutFault>
    ensures later { S.faults sink.old ≤ S.faults sink.new }
    ensures ok { OnOk result (Appends (S.written sink.old) (S.written sink.new) (body_text (show_form shown.now.command) shown.now.submission shown.now.noted shown.now.checked)) }
    ensures err { OnErr result (AppendsFront (S.written sink.old) (S.written sink.new) (body_text (show_form shown.now.command) shown.now.submission shown.now.noted shown.now.checked)) }
    ensures failed { result ≡ Err PutFault.Failed → Rose (S.faults sink.old) (S.faults sink.new) }
{
    match shown.checked {
        Checked::Accepted => put_answers(alloc, sink, shown),
        Checked::Rejected(_) => put_unshown(alloc, sink, shown.command.style),
    }
}

fn put_answers<S: Sink>(alloc: Global, sink: &mut S, shown: &Shown<'_>) -> Result<(), PutFault>
    ensures later { S.faults sink.old ≤ S.faults sink.new }
    ensures ok { OnOk result (Appends (S.written sink.old) (S.written sink.new) (answers_text (show_form shown.now.command) shown.now.submission.listing.properties shown.now.noted.beside (submitted_answers shown.now.submission))) }
    ensures err { OnErr result (AppendsFront (S.written sink.old) (S.written sink.new) (answers_text (show_form shown.now.command) shown.now.submission.listing.properties shown.now.noted.beside (submitted_answers shown.now.submission))) }
    ensures failed { result ≡ Err PutFault.Failed → Rose (S.faults sink.old) (S.faults sink.new) }
{
    let asked = put_passes(alloc, sink, shown)?;
    put_count(alloc, sink, shown.command.style, shown.command.most, asked)
}
