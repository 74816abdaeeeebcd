ghost use Rattle.std.specs.Prelude.{◌≡◌, ◌≤◌, ◌+◌, Err, IfOk, OnErr, OnOk, Ok};
ghost use Rattle.gp_outside.specs.Faults.{Rose};
ghost use Rattle.gp_outside.specs.Sinks.{Appends, AppendsFront};
ghost use Rattle.gp_show.specs.Answers.{answers_among, answers_from, answers_in, answers_of, answers_over};
ghost use Rattle.gp_show.specs.Request.{request_form};
ghost use Rattle.gp_show.specs.Show.{asked_count, submitted_answers, text_after};
ghost use Rattle.gp_window.specs.Windows.{all_windows};

use crate::choice::wants_window;
use crate::request::Request;
use crate::telling::put_if_shown;
use gp_certificate::Step;
use gp_constraint::{BaseFault, Encoded, base};
use gp_outside::{PutFault, Sink};
use gp_predict::Submission;
use gp_property::Property;
use gp_report::{Entry, PropertyRecord, WindowRecord};
use gp_view::Answered;
use gp_window::{Recording, Window, Windows};
use std::alloc::Global;

/// A window whose instances are told, with the steps that its certificates share.
#[derive(Clone, Copy)]
struct Basis<'a> {
    encoded: &'a Encoded,
    shared: &'a [Step],
}

/// Writes the instances of a report that are shown in a pass. `asked` are those that are asked for before it, and the result is how many
/// there are with its own. The text of one at a time is in memory. The clauses of a window are made anew where it has an answer
/// that may be among them.
pub fn put_submitted<S: Sink>(
    alloc: Global,
    sink: &mut S,
    request: &Request<'_>,
    submission: &Submission,
    asked: u64,
) -> Result<u64, PutFault>
    ensures later { S.faults sink.old ≤ S.faults sink.new }
    ensures count { IfOk result (λ count. count ≡ asked + asked_count (request_form request.now) (submitted_answers submission.now)) }
    ensures ok { OnOk result (Appends (S.written sink.old) (S.written sink.new) (text_after (request_form request.now) asked (submitted_answers submission.now))) }
    ensures err { OnErr result (AppendsFront (S.written sink.old) (S.written sink.new) (text_after (request_form request.now) asked (submitted_answers submission.now))) }
    ensures failed { result ≡ Err PutFault.Failed → Rose (S.faults sink.old) (S.faults sink.new) }
{
    let listing = &submission.listing;
    put_windows(
        alloc,
        sink,
        request,
        &listing.recording,
        listing.properties.as_slice(),
        submission.report.windows(),
        asked,
    )
}

fn put_windows<S: Sink>(
    alloc: Global,
    sink: &mut S,
    request: &Request<'_>,
    recording: &Recording,
    properties: &[Property],
    records: &[WindowRecord],
    asked: u64,
) -> Result<u64, PutFault>
    ensures later { S.faults sink.old ≤ S.faults sink.new }
    ensures count { IfOk result (λ count. count ≡ asked + asked_count (request_form request.now) (answers_of properties.now (all_windows recording.now) records.now)) }
    ensures ok { OnOk result (Appends (S.written sink.old) (S.written sink.new) (text_after (request_form request.now) asked (answers_of properties.now (all_windows recording.now) records.now))) }
    ensures err { OnErr result (AppendsFront (S.written sink.old) (S.written sink.new) (text_after (request_form request.now) asked (answers_of properties.now (all_windows recording.now) records.now))) }
    ensures failed { result ≡ Err PutFault.Failed → Rose (S.faults sink.old) (S.faults sink.new) }
{
    let mut windows = Windows::new(alloc, recording)?;
    let count = put_each_window(
        alloc,
        sink,
        request,
        properties,
        records,
        &mut windows,
        asked,
    );
    drop(windows);
    count
}

/// The same of the windows that are to come.
fn put_each_window<S: Sink>(
    alloc: Global,
    sink: &mut S,
    request: &Request<'_>,
    properties: &[Property],
    records: &[WindowRecord],
    windows: &mut Windows,
    asked: u64,
) -> Result<u64, PutFault>
    ensures later { S.faults sink.old ≤ S.faults sink.new }
    ensures count { IfOk result (λ count. count ≡ asked + asked_count (request_form request.now) (answers_of properties.now windows.old records.now)) }
    ensures ok { OnOk result (Appends (S.written sink.old) (S.written sink.new) (text_after (request_form request.now) asked (answers_of properties.now windows.old records.now))) }
    ensures err { OnErr result (AppendsFront (S.written sink.old) (S.written sink.new) (text_after (request_form request.now) asked (answers_of properties.now windows.old records.now))) }
    ensures failed { result ≡ Err PutFault.Failed → Rose (S.faults sink.old) (S.faults sink.new) }
{
    let mut count = asked;
    for told in records {
        let Some(window) = windows.next(alloc)? else {
            return Ok(count);
        };
        count = put_window(alloc, sink, request, properties, window, told, count)?;
    }
    Ok(count)
}

fn put_window<S: Sink>(
    alloc: Global,
    sink: &mut S,
    request: &Request<'_>,
    properties: &[Property],
    window: Window,
    told: &WindowRecord,
    asked: u64,
) -> Result<u64, PutFault>
    ensures later { S.faults sink.old ≤ S.faults sink.new }
    ensures count { IfOk result (λ count. count ≡ asked + asked_count (request_form request.now) (answers_in properties.now window told.now)) }
    ensures ok { OnOk result (Appends (S.written sink.old) (S.written sink.new) (text_after (request_form request.now) asked (answers_in properties.now window told.now))) }
    ensures err { OnErr result (AppendsFront (S.written sink.old) (S.written sink.new) (text_after (request_form request.now) asked (answers_in properties.now window told.now))) }
    ensures failed { result ≡ Err PutFault.Failed → Rose (S.faults sink.old) (S.faults sink.new) }
{
    if !wants_window(&request.command, request.pass, told) {
        drop(window);
        return Ok(asked);
    }
    match base(alloc, window) {
        Ok(encoded) => {
            let put = put_encoded(alloc, sink, request, properties, &encoded, told, asked);
            drop(encoded);
            put
        }
        Err(BaseFault::TooLarge { .. }) => Ok(asked),
        Err(BaseFault::Memory) => Err(PutFault::Memory),
    }
}

fn put_encoded<S: Sink>(
    alloc: Global,
    sink: &mut S,
    request: &Request<'_>,
    properties: &[Property],
    encoded: &Encoded,
    told: &WindowRecord,
    asked: u64,
) -> Result<u64, PutFault>
    ensures later { S.faults sink.old ≤ S.faults sink.new }
    ensures count { IfOk result (λ count. count ≡ asked + asked_count (request_form request.now) (answers_over properties.now told.now (Ok encoded.now))) }
    ensures ok { OnOk result (Appends (S.written sink.old) (S.written sink.new) (text_after (request_form request.now) asked (answers_over properties.now told.now (Ok encoded.now)))) }
    ensures err { OnErr result (AppendsFront (S.written sink.old) (S.written sink.new) (text_after (request_form request.now) asked (answers_over properties.now told.now (Ok encoded.now)))) }
    ensures failed { result ≡ Err PutFault.Failed → Rose (S.faults sink.old) (S.faults sink.new) }
{
    let basis = Basis {
        encoded,
        shared: told.shared.as_slice(),
    };
    put_properties(
        alloc,
        sink,
        request,
        &basis,
        properties,
        told.body.properties(),
        asked,
    )
}

fn put_properties<S: Sink>(
    alloc: Global,
    sink: &mut S,
    request: &Request<'_>,
    basis: &Basis<'_>,
    properties: &[Property],
    records: &[PropertyRecord],
    asked: u64,
) -> Result<u64, PutFault>
    ensures later { S.faults sink.old ≤ S.faults sink.new }
    ensures count { IfOk result (λ count. count ≡ asked + asked_count (request_form request.now) (answers_among basis.now.encoded.now basis.now.shared.now properties.now records.now)) }
    ensures ok { OnOk result (Appends (S.written sink.old) (S.written sink.new) (text_after (request_form request.now) asked (answers_among basis.now.encoded.now basis.now.shared.now properties.now records.now))) }
    ensures err { OnErr result (AppendsFront (S.written sink.old) (S.written sink.new) (text_after (request_form request.now) asked (answers_among basis.now.encoded.now basis.now.shared.now properties.now records.now))) }
    ensures failed { result ≡ Err PutFault.Failed → Rose (S.faults sink.old) (S.faults sink.new) }
{
    let mut count = asked;
    for (number, property) in properties.iter().enumerate() {
        let Some(told) = records.get(number) else {
            return Ok(count);
        };
        count = put_entries(
            alloc,
            sink,
            request,
            basis,
            property,
            told.body.entries(),
            count,
        )?;
    }
    Ok(count)
}

/// Writes those of a property's instances that are shown. 2^32 instances or more want more memory than there is.
fn put_entries<S: Sink>(
    alloc: Global,
    sink: &mut S,
    request: &Request<'_>,
    basis: &Basis<'_>,
    property: &Property,
    entries: &[Entry],
    asked: u64,
) -> Result<u64, PutFault>
    ensures later { S.faults sink.old ≤ S.faults sink.new }
    ensures count { IfOk result (λ count. count ≡ asked + asked_count (request_form request.now) (answers_from basis.now.encoded.now basis.now.shared.now property.now 0 entries.now)) }
    ensures ok { OnOk result (Appends (S.written sink.old) (S.written sink.new) (text_after (request_form request.now) asked (answers_from basis.now.encoded.now basis.now.shared.now property.now 0 entries.now))) }
    ensures err { OnErr result (AppendsFront (S.written sink.old) (S.written sink.new) (text_after (request_form request.now) asked (answers_from basis.now.encoded.now basis.now.shared.now property.now 0 entries.now))) }
    ensures failed { result ≡ Err PutFault.Failed → Rose (S.faults sink.old) (S.faults sink.new) }
{
    if entries.len() > u32::MAX as usize {
        return Err(PutFault::Memory);
    }
    let mut count = asked;
    for (number, entry) in entries.iter().enumerate() {
        let answered = Answered {
            encoded: basis.encoded,
            shared: basis.shared,
            property,
            number: number as u32,
            entry,
        };
        count = put_if_shown(alloc, sink, request, &answered, count)?;
    }
    Ok(count)
}
