ghost use Rattle.std.specs.Prelude.{◌≡◌, ◌≢◌, All, IfErr, OnOk, [], length, Err, Ok};
ghost use Rattle.gp_trace.specs.Trace.{IsLocalTrace};
ghost use Rattle.gp_window.specs.RecordingForm.{AreNumbered, IsRecording};
ghost use Rattle.gp_window.specs.Recording.{checked};
ghost use Rattle.gp_window.specs.RecordingFaults.{IsDue};

use crate::fault::RecordingFault;
use crate::manifest::Manifest;
use crate::marks::check_marks;
use crate::starts::walk_traces;
use gp_base::Row;
use gp_trace::LocalTrace;
use std::alloc::Global;
use std::marker::Model;

/// A recorded run: its manifest, and the trace of each thread, in order of thread.
#[derive(Drop)]
pub struct Recording {
    manifest: Manifest,
    traces: Row<LocalTrace>,
}

impl Model for Recording {
    ghost use Rattle.gp_window.specs.RecordingForm.{IsRecording, RecordingForm};

    ghost Value = { RecordingForm };

    ghost view = { λ r. record { manifest = r.manifest; traces = r.traces } };

    ghost invariant = { λ r. IsRecording (record { manifest = r.manifest; traces = r.traces }) };
}

impl Recording {
    /// The manifest.
    pub fn manifest(&self) -> &Manifest
        ensures value { result.now ≡ self.now.manifest }
        ensures rules { IsRecording self.now }
    {
        &self.manifest
    }

    /// A law: a recording keeps the rules of recordings.
    pub fn keeps_rules(&self)
        ensures { IsRecording self.now }
    {
        let _ = &self.manifest;
    }

    /// The traces, in order of thread.
    pub fn traces(&self) -> &[LocalTrace]
        ensures value { result.now ≡ self.now.traces }
        ensures rules { IsRecording self.now }
    {
        self.traces.as_slice()
    }
}

/// The recording of a manifest and traces, where the checks between them hold.
pub fn checked(
    alloc: Global,
    manifest: Manifest,
    traces: Row<LocalTrace>,
) -> Result<Recording, RecordingFault>
    requires count { length traces ≡ manifest.threads }
    requires numbered { AreNumbered manifest.epochs 1 traces }
    requires traces { All IsLocalTrace traces }
    ensures due { result ≢ Err RecordingFault.Memory → result ≡ checked manifest traces }
    ensures no_fault { result ≢ Err RecordingFault.ReadFailed }
{
    match check_traces(alloc, &manifest, traces.as_slice()) {
        Ok(()) => Ok(Recording { manifest, traces }),
        Err(fault) => {
            drop((manifest, traces));
            Err(fault)
        }
    }
}

fn check_traces(
    alloc: Global,
    manifest: &Manifest,
    traces: &[LocalTrace],
) -> Result<(), RecordingFault>
    ensures ok { OnOk result (checked manifest.now traces.now ≡ Ok (record { manifest = manifest.now; traces = traces.now })) }
    ensures err { IfErr result (IsDue (checked manifest.now traces.now)) }
    ensures no_fault { result ≢ Err RecordingFault.ReadFailed }
{
    let mut started = Row::new(alloc);
    let walked = walk_traces(manifest.threads(), manifest.roots(), &mut started, traces);
    drop(started);
    walked?;
    check_marks(alloc, manifest.epochs(), traces)
}
