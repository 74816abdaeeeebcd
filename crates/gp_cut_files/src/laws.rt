ghost use Rattle.gp_cut_files.specs.Examples.{ExamplesHold};
ghost use Rattle.gp_cut_files.specs.ManifestText.{ManifestReadsAgain};
ghost use Rattle.gp_cut_files.specs.Reading.{CutsAreRead, RecordingReadsAgain, WhatIsReadCanBeSpelled};

use gp_cut::cuts_are_recordings;
use gp_text::{plain_words, reads_again};
use gp_trace::{trace_reads_again, traces_fit};
use gp_window::manifests_are_spelled;

/// The text of a manifest is read as the manifest.
pub fn manifests_read_again()
    ensures { ManifestReadsAgain }
{
    plain_words();
    reads_again();
    manifests_are_spelled();
}

/// The files of a recording are read as the recording.
pub fn recordings_read_again()
    ensures { RecordingReadsAgain }
{
    manifests_read_again();
    trace_reads_again();
}

/// Lines can spell a recording that was read.
pub fn what_is_read_can_be_spelled()
    ensures { WhatIsReadCanBeSpelled }
{
    manifests_are_spelled();
    traces_fit();
}

/// The files of windows that are cut out of a recording are read as these windows with their stage.
pub fn cuts_are_read()
    ensures { CutsAreRead }
{
    what_is_read_can_be_spelled();
    cuts_are_recordings();
    recordings_read_again();
}

/// The files of a window of a small recording.
pub fn cut_files_examples()
    ensures { ExamplesHold }
{}
