ghost use Rattle.gp_cut.specs.Examples.{ExamplesHold};
ghost use Rattle.gp_cut.specs.Laws.{CutWindowsAreTheSame, CutsAreRecordings};
ghost use Rattle.gp_cut.specs.Parts.{PartsAreEven, PartsAreWhole};
ghost use Rattle.gp_cut.specs.PartsExamples.{PartsExamplesHold};

use gp_window::{marks_mean, starts_mean};

/// Windows that are cut out of a recording are a recording, of the same format.
pub fn cuts_are_recordings()
    ensures { CutsAreRecordings }
{
    starts_mean();
    marks_mean();
}

/// Each window behind the stage is the window that it stands for, in everything but its number.
pub fn cut_windows_are_the_same()
    ensures { CutWindowsAreTheSame }
{}

/// Windows of a small recording, cut out with their stage.
pub fn cuts_examples()
    ensures { ExamplesHold }
{}

/// Each window is in exactly one part, and the parts follow one another from the first window to the last.
pub fn parts_are_whole()
    ensures { PartsAreWhole }
{}

/// No boundary between windows is nearer than the end of a part to where that would be by events alone.
pub fn parts_are_even()
    ensures { PartsAreEven }
{}

/// Small recordings, parted.
pub fn parts_examples()
    ensures { PartsExamplesHold }
{}
