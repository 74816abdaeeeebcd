ghost use Rattle.std.specs.Prelude.{◌≡◌, ◌≢◌, ◌≤◌, Err};
ghost use Rattle.gp_window.specs.Marks.{after_marks};

use crate::fault::RecordingFault;
use crate::holders::Holders;
use gp_trace::LocalTrace;
use std::alloc::Global;

#[tactic(auto, using(crate::proofs::PassedMarks::held_more, crate::proofs::PassedMarks::passes, crate::proofs::PassedMarks::stops))]
/// Looks for a lock that two threads hold over a mark, at least one of them by an acquire, at the
/// marks in order.
pub fn check_marks(alloc: Global, epochs: u32, traces: &[LocalTrace]) -> Result<(), RecordingFault>
    requires { 1 ≤ epochs }
    ensures due { result ≢ Err RecordingFault.Memory → result ≡ after_marks epochs traces.now }
    ensures no_fault { result ≢ Err RecordingFault.ReadFailed }
{
    let mut holders = Holders::new(alloc);
    for before in 0..epochs - 1 {
        holders = holders.pass(before as usize, traces)?;
        match holders.first_contested(alloc) {
            Ok(None) => {}
            Ok(Some(lock)) => {
                drop(holders);
                return Err(RecordingFault::TwoHolders(lock, before + 2));
            }
            Err(error) => {
                drop(holders);
                return Err(RecordingFault::from(error));
            }
        }
    }
    drop(holders);
    Ok(())
}
