ghost use Rattle.std.specs.Prelude.{◌≡◌, ◌++◌, IfOk, OnOk};
ghost use Rattle.gp_window.specs.Ahead.{AreAhead};
ghost use Rattle.gp_window.specs.WindowForm.{window_of};
ghost use Rattle.gp_notified.specs.Due.{unpaired_in, unpaired_of};
ghost use Rattle.gp_notified.specs.Unasked.{AreRecordsOf, IsRecordOf, has_no_property};

use crate::encoding::problem_of;
use crate::paired::Paired;
use crate::report::Unpaired;
use gp_base::Row;
use gp_notify::NotifyFault;
use gp_report::{WindowBodyOf, WindowRecordOf};
use gp_window::{Recording, Window, WindowsAhead};
use std::alloc::{AllocError, Global};

/// The windows of a recording that are left out since a wake has no sleep, in order. Only those of which no property is recorded
/// are looked at again.
pub(crate) fn unpaired_of(
    alloc: Global,
    recording: &Recording,
    records: &[WindowRecordOf<Paired>],
) -> Result<Row<Unpaired>, AllocError>
    requires { AreRecordsOf recording.now records.now }
    ensures { IfOk result (λ unpaired. unpaired ≡ unpaired_of recording.now) }
{
    let mut windows = WindowsAhead::new(alloc, recording)?;
    let unpaired = unpaired_ahead(alloc, recording, records, &mut windows);
    drop(windows);
    unpaired
}

/// The same by a walk over the windows.
fn unpaired_ahead<'a>(
    alloc: Global,
    recording: &'a Recording,
    records: &[WindowRecordOf<Paired>],
    windows: &mut WindowsAhead<'a>,
) -> Result<Row<Unpaired>, AllocError>
    requires records { AreRecordsOf recording.now records.now }
    requires ahead { AreAhead recording.now windows.old }
    ensures { IfOk result (λ unpaired. unpaired ≡ unpaired_of recording.now) }
{
    let mut unpaired = Row::new(alloc);
    let mut left = records;
    while let Some((own, more)) = left.split_first() {
        add_unpaired(alloc, recording, windows, own, &mut unpaired)?;
        left = more;
    }
    Ok(unpaired)
}

/// Adds the window of a record, where it is left out for a wake.
fn add_unpaired<'a>(
    alloc: Global,
    recording: &'a Recording,
    windows: &mut WindowsAhead<'a>,
    own: &WindowRecordOf<Paired>,
    unpaired: &mut Row<Unpaired>,
) -> Result<(), AllocError>
    requires ahead { AreAhead recording.now windows.old }
    requires own { IsRecordOf recording.now own.now.number own.now }
    ensures ahead { OnOk result (AreAhead recording.now windows.new) }
    ensures added { OnOk result (unpaired.new ≡ unpaired.old ++ unpaired_in (window_of recording.now own.now.number)) }
{
    if !has_no_property(&own.body) {
        return Ok(());
    }
    let window = windows.window(alloc, recording, own.number)?;
    push_unpaired(alloc, window, unpaired)
}

fn has_no_property(body: &WindowBodyOf<Paired>) -> bool
    ensures { result ≡ has_no_property body.now }
{
    match body {
        WindowBodyOf::TooLarge { .. } => false,
        WindowBodyOf::Answers(properties) => properties.is_empty(),
    }
}

/// Adds a window, where it is left out for a wake.
fn push_unpaired(
    alloc: Global,
    window: Window,
    unpaired: &mut Row<Unpaired>,
) -> Result<(), AllocError>
    ensures { OnOk result (unpaired.new ≡ unpaired.old ++ unpaired_in window) }
{
    let number = window.number();
    match problem_of(alloc, window) {
        Err(NotifyFault::Unpaired(wake)) => unpaired.push(Unpaired {
            window: number,
            wake,
        }),
        Err(NotifyFault::Memory) => Err(AllocError),
        Err(NotifyFault::TooLarge { .. }) => Ok(()),
        Ok(extended) => {
            drop(extended);
            Ok(())
        }
    }
}
