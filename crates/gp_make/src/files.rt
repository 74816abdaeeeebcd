ghost use Rattle.std.specs.Prelude.{◌≡◌, ◌≤◌, [], ◌∷◌, ◌++◌, IfOk, OnOk, codes, length};
ghost use Rattle.gp_window.specs.declared.file_name.FileName.TheVariants.{Manifest, Properties, Trace};
ghost use Rattle.gp_trace.specs.Printed.{event_words};
ghost use Rattle.gp_make.specs.Files.{file_of};
ghost use Rattle.gp_make.specs.Texts.{property_lines, told_event};
ghost use Rattle.gp_make.specs.Traces.{TracesGrow, lines_of, traces_with, with_lines};

use crate::action::{Action, Event};
use crate::lines::put_action;
use gp_base::Row;
use gp_files::MadeFile;
use gp_window::FileName;
use std::alloc::{AllocError, Global};
use std::marker::Model;

const PROPERTIES: &[u8] =
    b"property use_before_auth\nevent use op use $o\nevent auth op auth $o\npattern use@u auth@t\n";

/// The trace of a thread while it is written.
#[derive(Drop)]
pub(crate) struct GrowingTrace {
    thread: u32,
    text: Vec<u8>,
}

impl Model for GrowingTrace {
    ghost use Rattle.gp_files.specs.MadeFileForm.{MadeFileForm};
    ghost use Rattle.gp_window.specs.declared.file_name.FileName.TheVariants.{Trace};

    ghost Value = { MadeFileForm };

    ghost view = { λ t. record { name = Trace t.thread; text = t.text.items } };
}

impl GrowingTrace {
    fn new(alloc: Global, thread: u32) -> GrowingTrace
        ensures { result ≡ file_of (Trace thread) [] }
    {
        GrowingTrace {
            thread,
            text: Vec::new(alloc),
        }
    }

    // Puts the line of what the thread did.
    fn put(&mut self, action: Action) -> Result<(), AllocError>
        ensures { OnOk result (self.new ≡ with_lines self.old (event_words (told_event action) ∷ [])) }
    {
        put_action(&mut self.text, action)
    }

    // Puts a mark.
    fn mark(&mut self) -> Result<(), AllocError>
        ensures { OnOk result (self.new ≡ with_lines self.old ((codes "mark" ∷ []) ∷ [])) }
    {
        self.text.extend_from_slice(b"mark\n")
    }

    // The file of the trace, with what it has now.
    fn finish(self) -> MadeFile
        ensures { result ≡ self }
    {
        let GrowingTrace { thread, text } = self;
        MadeFile::new(FileName::Trace(thread), Row::from_vec(text))
    }
}

/// The traces of so many threads, in order, with nothing in them yet.
pub(crate) fn empty_traces(alloc: Global, threads: u32) -> Result<Vec<GrowingTrace>, AllocError>
    ensures { IfOk result (λ traces. traces.items ≡ traces_with threads (λ _. [])) }
{
    let mut traces = Vec::new(alloc);
    for thread in 0..threads {
        traces.push(GrowingTrace::new(alloc, thread + 1))?;
    }
    Ok(traces)
}

/// Puts the line of an event into the trace of its thread.
pub(crate) fn put_event(traces: &mut [GrowingTrace], event: Event) -> Result<(), AllocError>
    requires first { 1 ≤ event.thread }
    requires last { event.thread ≤ length traces.old }
    ensures { OnOk result (TracesGrow traces.old traces.new (λ thread. lines_of thread (event ∷ []))) }
{
    traces[event.thread as usize - 1].put(event.action)
}

/// Puts a mark into every trace.
pub(crate) fn put_marks(traces: &mut [GrowingTrace]) -> Result<(), AllocError>
    ensures { OnOk result (TracesGrow traces.old traces.new (λ _. (codes "mark" ∷ []) ∷ [])) }
{
    for trace in traces.iter_mut() {
        trace.mark()?;
    }
    Ok(())
}

/// The files in the order in which they are written: the manifest, the traces, the properties.
pub(crate) fn in_order(
    alloc: Global,
    manifest: Vec<u8>,
    traces: Vec<GrowingTrace>,
) -> Result<Row<MadeFile>, AllocError>
    ensures { IfOk result (λ files. files ≡ record { name = Manifest; text = manifest.items } ∷ (traces.items ++ file_of Properties property_lines ∷ [])) }
{
    let mut files = Vec::new(alloc);
    files.push(MadeFile::new(FileName::Manifest, Row::from_vec(manifest)))?;
    for trace in traces {
        files.push(trace.finish())?;
    }
    let properties = Vec::from_slice(alloc, PROPERTIES)?;
    files.push(MadeFile::new(FileName::Properties, Row::from_vec(properties)))?;
    Ok(Row::from_vec(files))
}
