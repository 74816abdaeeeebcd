ghost use Rattle.std.specs.Prelude.{◌≡◌, ◌≤◌, ◌+◌, Err, IfOk, OnErr, OnOk, length};
ghost use Rattle.gp_outside.specs.Faults.{Rose};
ghost use Rattle.gp_outside.specs.Sinks.{Appends, AppendsFront};
ghost use Rattle.gp_show.specs.Choice.{asked_of, shown_of};
ghost use Rattle.gp_show.specs.Request.{request_with};
ghost use Rattle.gp_show.specs.Show.{asked_count, submitted_answers, text_after, told_from};
ghost use Rattle.gp_words.specs.Showing.{show_form};

use crate::answers::put_submitted;
use crate::choice::Pass;
use crate::request::Request;
use crate::shown::Shown;
use gp_outside::{PutFault, Sink};
use std::alloc::Global;

/// Writes the instances of a report that are shown, by one pass for those that are found and one for the others, and gives how many are
/// asked for.
pub fn put_passes<S: Sink>(alloc: Global, sink: &mut S, shown: &Shown<'_>) -> Result<u64, PutFault>
    ensures later { S.faults sink.old ≤ S.faults sink.new }
    ensures count { IfOk result (λ count. count ≡ length (asked_of (show_form shown.now.command) (submitted_answers shown.now.submission))) }
    ensures ok { OnOk result (Appends (S.written sink.old) (S.written sink.new) (told_from shown.now.command.style shown.now.submission.listing.properties shown.now.noted.beside 0 (shown_of (show_form shown.now.command) (submitted_answers shown.now.submission)))) }
    ensures err { OnErr result (AppendsFront (S.written sink.old) (S.written sink.new) (told_from shown.now.command.style shown.now.submission.listing.properties shown.now.noted.beside 0 (shown_of (show_form shown.now.command) (submitted_answers shown.now.submission)))) }
    ensures failed { result ≡ Err PutFault.Failed → Rose (S.faults sink.old) (S.faults sink.new) }
{
    let found = put_pass(alloc, sink, shown, Pass::Found, 0)?;
    put_pass(alloc, sink, shown, Pass::Others, found)
}

/// Writes those that are shown in a pass, where so many that are asked for were before it.
fn put_pass<S: Sink>(
    alloc: Global,
    sink: &mut S,
    shown: &Shown<'_>,
    pass: Pass,
    asked: u64,
) -> Result<u64, PutFault>
    ensures later { S.faults sink.old ≤ S.faults sink.new }
    ensures count { IfOk result (λ count. count ≡ asked + asked_count (request_with (show_form shown.now.command) pass shown.now.submission shown.now.noted) (submitted_answers shown.now.submission)) }
    ensures ok { OnOk result (Appends (S.written sink.old) (S.written sink.new) (text_after (request_with (show_form shown.now.command) pass shown.now.submission shown.now.noted) asked (submitted_answers shown.now.submission))) }
    ensures err { OnErr result (AppendsFront (S.written sink.old) (S.written sink.new) (text_after (request_with (show_form shown.now.command) pass shown.now.submission shown.now.noted) asked (submitted_answers shown.now.submission))) }
    ensures failed { result ≡ Err PutFault.Failed → Rose (S.faults sink.old) (S.faults sink.new) }
{
    let request = Request {
        command: shown.command,
        pass,
        properties: shown.submission.listing.properties.as_slice(),
        beside: &shown.noted.beside,
    };
    put_submitted(alloc, sink, &request, &shown.submission, asked)
}
