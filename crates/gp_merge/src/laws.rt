ghost use Rattle.gp_merge.specs.Examples.{ExamplesHold};
ghost use Rattle.gp_merge.specs.Laws.{MergedIsAccepted, MergedIsReport};

use gp_cut::cut_windows_are_the_same;

/// Where the report of each part of a recording is accepted for that part, the merged report is accepted for the recording.
pub fn merged_is_accepted()
    ensures { MergedIsAccepted }
{
    cut_windows_are_the_same();
}

/// Where a text can tell the report of each part, one can tell the merged report.
pub fn merged_is_report()
    ensures { MergedIsReport }
{}

/// The reports of three parts, one of them empty, and what is merged of them.
pub fn merges_examples()
    ensures { ExamplesHold }
{}
