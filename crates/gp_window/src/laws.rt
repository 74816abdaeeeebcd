ghost use Rattle.gp_window.specs.Follow.{WindowsFollow};
ghost use Rattle.gp_window.specs.Formed.{WindowsAreFormed};
ghost use Rattle.gp_window.specs.Grammar.{ManifestsAreSpelled};
ghost use Rattle.gp_window.specs.MarksTold.{MarksMean};
ghost use Rattle.gp_window.specs.StartsTold.{StartsMean};

use gp_text::one_spelling;

/// Each window is formed as its recording makes it: locks are used well, no thread is started twice,
/// and threads, names and numbers are what they have to be.
pub fn windows_are_formed()
    ensures { WindowsAreFormed }
{}

/// Lines are read as a manifest exactly where they spell it.
pub fn manifests_are_spelled()
    ensures { ManifestsAreSpelled }
{
    one_spelling();
}

/// Each window of a recording begins with what the one before it leaves, and with the values that are given for it.
pub fn windows_follow()
    ensures { WindowsFollow }
{
    windows_are_formed();
}

/// The check of starts and joins tells a fault exactly where it is what is wrong with the first event, by
/// thread and then in the thread's order, with which something is wrong.
pub fn starts_mean()
    ensures { StartsMean }
{}

/// The check of the marks tells exactly the least window before which two threads hold a lock, not both
/// as readers, and the least such lock there.
pub fn marks_mean()
    ensures { MarksMean }
{}
