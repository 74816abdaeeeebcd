ghost use Rattle.std.specs.Prelude.{◌≡◌, ◌≤◌, Err, OnErr, OnOk};
ghost use Rattle.gp_outside.specs.Faults.{Rose};
ghost use Rattle.gp_outside.specs.Sinks.{Appends, AppendsFront};
ghost use Rattle.gp_predict.specs.Told.{Told, ends};

use crate::outcome::Outcome;
use crate::reply::Reply;
use crate::writing::put_lines;
use gp_outside::{PutFault, Sink};
use std::alloc::Global;

/// The result of a task or of another program, which can be told: it has a status of 0 or 1, a text, and what of it is kept.
pub trait Tells {
    ghost told: { Self → Told };

    /// Writes its text. Where the sink fails, or memory is wanting, a part of it may be written.
    fn put<S: Sink>(&self, alloc: Global, sink: &mut S) -> Result<(), PutFault>
        ensures later { S.faults sink.old ≤ S.faults sink.new }
        ensures ok { OnOk result (Appends (S.written sink.old) (S.written sink.new) (told self.now).text) }
        ensures err { OnErr result (AppendsFront (S.written sink.old) (S.written sink.new) (told self.now).text) }
        ensures failed { result ≡ Err PutFault.Failed → Rose (S.faults sink.old) (S.faults sink.new) };

    /// Ends with it.
    fn end(self) -> Outcome
        ensures ends { result ≡ ends (told self) }
        ensures few { (told self).status ≤ 1 };
}

/// A text that is made before it is written, with its status.
#[derive(Drop)]
pub struct Answer {
    pub reply: Reply,
    ghost few: { reply.status ≤ 1 },
}

impl Tells for Answer {
    ghost use Rattle.gp_predict.specs.Telling.{of_answer};

    ghost told = { of_answer };

    fn put<S: Sink>(&self, _alloc: Global, sink: &mut S) -> Result<(), PutFault> {
        put_lines(sink, self.reply.lines.as_slice())
    }

    fn end(self) -> Outcome {
        Outcome::of(self.reply.status)
    }
}
