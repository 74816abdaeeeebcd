ghost use Rattle.std.specs.Prelude.{◌≡◌, ◌≢◌, ◌≤◌, ◌⊎◌, ◌↔◌, true};
ghost use Rattle.gp_predict.specs.Finished.{IsFinished, IsPut, told_by};
ghost use Rattle.gp_predict.specs.Refused.{is_limit, reply_of, stops_at_limit};
ghost use Rattle.gp_predict.specs.Telling.{of_reply};
ghost use Rattle.gp_predict.specs.Told.{IsDone};

use crate::outcome::Outcome;
use crate::refusal::{Refusal, reply_of};
use crate::reply::Reply;
use crate::results::Tells;
use crate::stop::Stop;
use crate::writing::put_lines;
use gp_outside::{PutFault, Sink};
use std::alloc::Global;

/// Tells what a task, or another program, came to, and ends with its status: 3 or 7 where that is a refusal, 4 where the folder failed,
/// 5 where the sink fails, and 6 where memory is wanting.
pub fn finish<S: Sink, T: Tells + Drop>(
    alloc: Global,
    sink: &mut S,
    made: Result<T, Stop>,
) -> Outcome
    ensures finished { IsFinished (told_by T.told made) result (S.written sink.old) (S.written sink.new) (S.faults sink.old) (S.faults sink.new) }
    ensures words { result.status ≢ 2 }
    ensures limit { result.status ≡ 7 → stops_at_limit made ≡ true }
{
    match made {
        Ok(whole) => put_whole(alloc, sink, whole),
        Err(Stop::Refused(why)) => put_refusal(alloc, sink, why),
        Err(Stop::FolderFailed) => Outcome::of(4),
        Err(Stop::Memory) => Outcome::of(6),
    }
}

/// Tells a result, and ends with it.
fn put_whole<S: Sink, T: Tells>(alloc: Global, sink: &mut S, whole: T) -> Outcome
    ensures put { IsPut (T.told whole) result (S.written sink.old) (S.written sink.new) (S.faults sink.old) (S.faults sink.new) }
    ensures few { (T.told whole).status ≤ 1 }
    ensures words { result.status ≢ 2 }
    ensures limit { result.status ≢ 7 }
{
    let put = whole.put(alloc, sink);
    let mut outcome = whole.end();
    if let Err(fault) = put {
        outcome.status = status_of_fault(fault);
    }
    outcome
}

/// Tells a refusal, and ends with it.
fn put_refusal<S: Sink>(alloc: Global, sink: &mut S, why: Refusal) -> Outcome
    ensures put { IsPut (of_reply (reply_of why)) result (S.written sink.old) (S.written sink.new) (S.faults sink.old) (S.faults sink.new) }
    ensures words { result.status ≢ 2 }
    ensures limit { result.status ≡ 7 → is_limit why ≡ true }
{
    match reply_of(alloc, why) {
        Ok(reply) => put_reply(sink, &reply),
        Err(_) => Outcome::of(6),
    }
}

/// Tells a text with its status, and ends with it: with 5 where the sink fails, and with 6 where memory is wanting.
pub fn put_reply<S: Sink>(sink: &mut S, reply: &Reply) -> Outcome
    requires { IsDone reply.now.status }
    ensures put { IsPut (of_reply reply.now) result (S.written sink.old) (S.written sink.new) (S.faults sink.old) (S.faults sink.new) }
    ensures status { (result.status ≡ reply.now.status) ⊎ (result.status ≡ 5) ⊎ (result.status ≡ 6) }
{
    match put_lines(sink, reply.lines.as_slice()) {
        Ok(()) => Outcome::of(reply.status),
        Err(fault) => Outcome::of(status_of_fault(fault)),
    }
}

/// The status where a sink did not take the whole text.
fn status_of_fault(fault: PutFault) -> u8
    ensures failed { (result ≡ 5) ↔ (fault ≡ PutFault.Failed) }
    ensures range { (result ≡ 5) ⊎ (result ≡ 6) }
{
    match fault {
        PutFault::Failed => 5,
        PutFault::Memory => 6,
    }
}
