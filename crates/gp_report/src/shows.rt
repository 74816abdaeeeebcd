ghost use Rattle.std.specs.Prelude.{◌≡◌, ◌++◌, ℕ, List, OnOk};
ghost use Rattle.gp_text.specs.Spelling.{spelling};

use gp_window::Schedule;
use gp_writer::put_counted_list;
use std::alloc::AllocError;

/// What shows that an ask is possible, as the text of a report tells it.
pub trait Shows {
    ghost lines: { Self → List (List (List ℕ)) };

    /// Puts the lines at the end of a text.
    fn put(&self, text: &mut Vec<u8>) -> Result<(), AllocError>
        ensures { OnOk result (text.new.items ≡ text.old.items ++ spelling (lines self.now)) };
}

impl Shows for Schedule {
    ghost use Rattle.gp_report.specs.Printed.{schedule_lines};

    ghost lines = { schedule_lines };

    fn put(&self, text: &mut Vec<u8>) -> Result<(), AllocError> {
        put_counted_list(text, b"found", self.events.as_slice())
    }
}
