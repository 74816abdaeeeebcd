ghost use Rattle.gp_due.specs.NeverDue.{NeverDue, TextsAreDone};
ghost use Rattle.gp_due.specs.Readers.{ContentsWantNoMemory, InstancesWantNoMemory, LinesWantNoMemory, PartsWantNoMemory, PropertiesWantNoMemory, RecordingsWantNoMemory, ReplaysWantNoMemory, ReportsWantNoMemory, SchedulesWantNoMemory, TracesWantNoMemory};
ghost use Rattle.gp_due.specs.ShardsNeverDue.{ShardsAreDone, ShardsNeverDue};
ghost use Rattle.gp_due.specs.ShownNeverDue.{ShownNeverDue, ShownTextsAreDone};

/// A law: where a text is no lines, the fault is never want of memory.
pub fn lines_want_no_memory()
    ensures { LinesWantNoMemory }
{}

/// A law: where a text is no trace of its thread, the fault is never want of memory.
pub fn traces_want_no_memory()
    ensures { TracesWantNoMemory }
{}

/// A law: where the bytes of a file are not told, the fault is never want of memory or a fault of the folder.
pub fn contents_want_no_memory()
    ensures { ContentsWantNoMemory }
{}

/// A law: where the files of a folder are no recording, the fault is never want of memory or a fault of the folder.
pub fn recordings_want_no_memory()
    ensures { RecordingsWantNoMemory }
{}

/// A law: where a text is no schedule, the fault is never want of memory.
pub fn schedules_want_no_memory()
    ensures { SchedulesWantNoMemory }
{}

/// A law: where a schedule is not replayed to its end, the fault is never want of memory.
pub fn replays_want_no_memory()
    ensures { ReplaysWantNoMemory }
{}

/// A law: where a text is no file of properties, the fault is never want of memory.
pub fn properties_want_no_memory()
    ensures { PropertiesWantNoMemory }
{}

/// A law: where the instances of a property in a window are not listed, it is never for want of memory.
pub fn instances_want_no_memory()
    ensures { InstancesWantNoMemory }
{}

/// A law: where a text is no report, the fault is never want of memory.
pub fn reports_want_no_memory()
    ensures { ReportsWantNoMemory }
{}

/// A law: where a text does not say which part a folder has, the fault is never want of memory.
pub fn parts_want_no_memory()
    ensures { PartsWantNoMemory }
{}

/// A law: whatever the words and whichever files are told, the answer without a text is not due.
pub fn never_due()
    ensures { NeverDue }
{}

/// A law: a text that is due has a status of 0 to 3, or 7.
pub fn texts_are_done()
    ensures { TextsAreDone }
{}

/// A law: whatever the words and whichever files are told, where something is due to the program that cuts recordings and merges
/// reports, the answer without a text may not be told.
pub fn shards_never_due()
    ensures { ShardsNeverDue }
{}

/// A law: what may be told where something is due to that program has a status of 0 to 3, or 7.
pub fn shards_are_done()
    ensures { ShardsAreDone }
{}

/// A law: whatever the words and whichever files are told, the answer without a text is not due to the program that shows a report.
pub fn shown_never_due()
    ensures { ShownNeverDue }
{}

/// A law: a text that is due to that program has a status of 0 to 3, or 7.
pub fn shown_texts_are_done()
    ensures { ShownTextsAreDone }
{}
