ghost use Rattle.gp_outside.specs.Sinks.{Appends, AppendsFront};
ghost use Rattle.gp_outside.specs.StdSinks.{faults_after};
ghost use Rattle.std.specs.Prelude.{◌≡◌, ◌≢◌, ◌≤◌, None, OnErr, OnOk};

use crate::outputs::Output;
use crate::sinks::{PutFault, Sink};
use crate::writing::write_whole;
use std::io::Write;
use std::marker::Model;

/// One of std's writers as a sink, which tells what the writer tells. The standard output tells nothing.
#[derive(Drop)]
pub struct StdSink<W: Write> {
    writer: W,
    faults: u64,
}

impl<W: Write> Model for StdSink<W> {
    ghost use Rattle.gp_outside.specs.StdSinks.{StdSinkForm};

    ghost Value = { StdSinkForm };

    ghost view = { λ sink. record { written = W.contents sink.writer; faults = sink.faults } };
}

impl<R: Print> StdSink<Output<R>> {
    /// The standard output of this runtime.
    pub fn new(rt: R) -> StdSink<Output<R>>
        ensures { result ≡ record { written = None; faults = 0 } }
    {
        StdSink::over(Output::new(rt))
    }
}

impl<W: Write> StdSink<W> {
    /// The sink that writes to this writer.
    pub fn over(writer: W) -> StdSink<W>
        ensures { result ≡ record { written = W.contents writer; faults = 0 } }
    {
        StdSink { writer, faults: 0 }
    }
}

impl<W: Write> Sink for StdSink<W> {
    ghost written = { λ sink. sink.written };

    ghost faults = { λ sink. sink.faults };

    /// It takes no memory. A write that fails, and one that takes no byte, is `Failed`.
    fn put(&mut self, piece: &[u8]) -> Result<(), PutFault>
        ensures later { self.old.faults ≤ self.new.faults }
        ensures ok { OnOk result (Appends self.old.written self.new.written piece.now) }
        ensures err { OnErr result (AppendsFront self.old.written self.new.written piece.now) }
        ensures counted { self.new.faults ≡ faults_after result self.old.faults }
        ensures no_memory { result ≢ Err PutFault.Memory }
    {
        let answer = write_whole(&mut self.writer, piece).map_err(|_| PutFault::Failed);
        if answer.is_err() {
            self.faults = self.faults.saturating_add(1);
        }
        answer
    }
}
