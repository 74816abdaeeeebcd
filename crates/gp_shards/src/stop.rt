ghost use Rattle.std.specs.Prelude.{◌≡◌, IfSome, false};
ghost use Rattle.gp_shards.specs.Refusing.{unless_wrong};
ghost use Rattle.gp_shards.specs.Stage.{IsRefusedIn, IsShardStep, is_absent_in};

use crate::refusal::{PartFault, ShardRefusal};
use gp_predict::Stop;
use std::alloc::{AllocError, Global};

/// Why nothing is cut or merged.
#[derive(Drop)]
pub enum ShardStop {
    /// The recording, or what stands in the folder of a part, is refused.
    Refused(ShardRefusal),
    /// The folder failed.
    FolderFailed,
    /// Want of memory.
    Memory,
}

impl From<AllocError> for ShardStop {
    ghost use Rattle.std.specs.Prelude.{◌≡◌};
    ghost use Rattle.gp_shards.specs.declared.stop.ShardStop.TheVariants.{Memory};

    ghost from_gives = { λ _ e. e ≡ Memory };

    fn from(_error: AllocError) -> ShardStop {
        ShardStop::Memory
    }
}

impl From<Stop> for ShardStop {
    ghost use Rattle.std.specs.Prelude.{◌≡◌};
    ghost use Rattle.gp_shards.specs.Stage.{stop_of};

    ghost from_gives = { λ stop e. e ≡ stop_of stop };

    fn from(stop: Stop) -> ShardStop {
        match stop {
            Stop::Refused(why) => ShardStop::Refused(ShardRefusal::Usual(why)),
            Stop::FolderFailed => ShardStop::FolderFailed,
            Stop::Memory => ShardStop::Memory,
        }
    }
}

/// Stops at what is wrong in the folder of a part. The refusal keeps the folder's name, which wants memory.
pub fn refuse_in<T>(alloc: Global, folder: &str, fault: PartFault) -> Result<T, ShardStop>
    ensures { IsRefusedIn result folder.now fault }
{
    let folder = String::from_str(alloc, folder)?;
    Err(ShardStop::Refused(ShardRefusal::InPart(folder, fault)))
}

/// Gives the value where nothing is wrong in the folder of a part.
pub fn unless_wrong<T: Drop>(
    alloc: Global,
    folder: &str,
    fault: Option<PartFault>,
    value: T,
) -> Result<T, ShardStop>
    requires { IfSome fault (λ fault. is_absent_in fault ≡ false) }
    ensures { IsShardStep result (unless_wrong folder.now fault value) }
{
    match fault {
        None => Ok(value),
        Some(fault) => refuse_in(alloc, folder, fault),
    }
}
