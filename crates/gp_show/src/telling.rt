ghost use Rattle.std.specs.Prelude.{◌≡◌, ◌≤◌, ◌+◌, ◌++◌, ◌∷◌, [], Err, IfOk, OnErr, OnOk, true};
ghost use Rattle.gp_outside.specs.Faults.{Rose};
ghost use Rattle.gp_outside.specs.Sinks.{Appends, AppendsFront};
ghost use Rattle.gp_show.specs.Choice.{asks_in};
ghost use Rattle.gp_show.specs.Request.{request_form};
ghost use Rattle.gp_show.specs.Show.{answered_text, asked_count, separator, text_after};
ghost use Rattle.gp_view.specs.Answered.{form_of};
ghost use Rattle.gp_words.specs.Showing.{show_form};

use crate::choice::asks_in;
use crate::request::Request;
use gp_json::put_comma;
use gp_outside::{PutFault, Sink};
use gp_predict::put_each_line;
use gp_sarif::put_result;
use gp_view::{Answered, put_answered, put_answered_part};
use gp_words::Style;
use std::alloc::{AllocError, Global};

/// Writes an instance that is asked for and that the pass tells of, unless as many as may be shown were before it. `asked` are those before
/// it, and the result is how many there are with it.
pub fn put_if_shown<S: Sink>(
    alloc: Global,
    sink: &mut S,
    request: &Request<'_>,
    answered: &Answered<'_>,
    asked: u64,
) -> Result<u64, PutFault>
    ensures later { S.faults sink.old ≤ S.faults sink.new }
    ensures count { IfOk result (λ count. count ≡ asked + asked_count (request_form request.now) (form_of answered.now ∷ [])) }
    ensures ok { OnOk result (Appends (S.written sink.old) (S.written sink.new) (text_after (request_form request.now) asked (form_of answered.now ∷ []))) }
    ensures err { OnErr result (AppendsFront (S.written sink.old) (S.written sink.new) (text_after (request_form request.now) asked (form_of answered.now ∷ []))) }
    ensures failed { result ≡ Err PutFault.Failed → Rose (S.faults sink.old) (S.faults sink.new) }
{
    if !asks_in(&request.command, request.pass, answered) {
        return Ok(asked);
    }
    put_if_left(alloc, sink, request, answered, asked)?;
    Ok(one_more(asked)?)
}

/// Writes an instance that is asked for, unless as many as may be shown were before it.
fn put_if_left<S: Sink>(
    alloc: Global,
    sink: &mut S,
    request: &Request<'_>,
    answered: &Answered<'_>,
    asked: u64,
) -> Result<(), PutFault>
    requires { asks_in (show_form request.now.command) request.now.pass (form_of answered.now) ≡ true }
    ensures later { S.faults sink.old ≤ S.faults sink.new }
    ensures ok { OnOk result (Appends (S.written sink.old) (S.written sink.new) (text_after (request_form request.now) asked (form_of answered.now ∷ []))) }
    ensures err { OnErr result (AppendsFront (S.written sink.old) (S.written sink.new) (text_after (request_form request.now) asked (form_of answered.now ∷ []))) }
    ensures failed { result ≡ Err PutFault.Failed → Rose (S.faults sink.old) (S.faults sink.new) }
{
    if u64::from(request.command.most) <= asked {
        return Ok(());
    }
    put_told(alloc, sink, request, answered, asked)
}

/// Writes an instance before which so many others are shown, whose text is made in memory first.
fn put_told<S: Sink>(
    alloc: Global,
    sink: &mut S,
    request: &Request<'_>,
    answered: &Answered<'_>,
    before: u64,
) -> Result<(), PutFault>
    ensures later { S.faults sink.old ≤ S.faults sink.new }
    ensures ok { OnOk result (Appends (S.written sink.old) (S.written sink.new) (separator request.now.command.style before ++ answered_text request.now.command.style request.now.properties.now request.now.beside.now (form_of answered.now))) }
    ensures err { OnErr result (AppendsFront (S.written sink.old) (S.written sink.new) (separator request.now.command.style before ++ answered_text request.now.command.style request.now.properties.now request.now.beside.now (form_of answered.now))) }
    ensures failed { result ≡ Err PutFault.Failed → Rose (S.faults sink.old) (S.faults sink.new) }
{
    let mut text = Vec::new(alloc);
    add_separator(&mut text, request.command.style, before)?;
    add_told(&mut text, request, answered)?;
    put_each_line(sink, text.as_slice())
}

/// Puts what parts an instance from those before it, so many.
fn add_separator(text: &mut Vec<u8>, style: Style, before: u64) -> Result<(), AllocError>
    ensures { OnOk result (text.new.items ≡ text.old.items ++ separator style before) }
{
    match style {
        Style::Text => Ok(()),
        Style::Page => Ok(()),
        Style::Json | Style::Sarif => put_comma(text, before as usize),
    }
}

fn add_told(
    text: &mut Vec<u8>,
    request: &Request<'_>,
    answered: &Answered<'_>,
) -> Result<(), AllocError>
    ensures { OnOk result (text.new.items ≡ text.old.items ++ answered_text request.now.command.style request.now.properties.now request.now.beside.now (form_of answered.now)) }
{
    match request.command.style {
        Style::Text => put_answered(text, request.beside, answered),
        Style::Page => put_answered_part(text, request.beside, answered),
        Style::Json => gp_values::put_answered(text, request.beside, answered),
        Style::Sarif => put_result(text, request.properties, &request.beside.places, answered),
    }
}

/// One more than so many; more instances than 2^64 - 1 would not fit into memory.
fn one_more(count: u64) -> Result<u64, AllocError>
    ensures { IfOk result (λ more. more ≡ count + 1) }
{
    count.checked_add(1).ok_or(AllocError)
}
