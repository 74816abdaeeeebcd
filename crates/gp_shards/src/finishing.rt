ghost use Rattle.std.specs.Prelude.{◌≡◌, ◌≢◌, ◌⊎◌, false};
ghost use Rattle.gp_predict.specs.Finished.{IsPut};
ghost use Rattle.gp_predict.specs.Telling.{of_reply};
ghost use Rattle.gp_shards.specs.Finishing.{IsStopped};
ghost use Rattle.gp_shards.specs.Refusing.{shard_reply};
ghost use Rattle.gp_shards.specs.Stage.{is_at_limit, is_work};

use crate::refusal::{ShardRefusal, shard_reply};
use crate::stop::ShardStop;
use gp_outside::Sink;
use gp_predict::{Outcome, put_reply};
use std::alloc::Global;

/// Tells why nothing is cut or merged, and ends with it: with 3 where something is refused, 4 where the folder failed, 5 where the sink
/// fails, and 6 where memory is wanting.
pub fn put_stop<S: Sink>(alloc: Global, sink: &mut S, stop: ShardStop) -> Outcome
    requires { is_at_limit stop ≡ false }
    ensures { IsStopped stop result (S.written sink.old) (S.written sink.new) (S.faults sink.old) (S.faults sink.new) }
{
    match stop {
        ShardStop::Refused(why) => put_refusal(alloc, sink, why),
        ShardStop::FolderFailed => Outcome::of(4),
        ShardStop::Memory => Outcome::of(6),
    }
}

/// Tells a refusal, and ends with it.
fn put_refusal<S: Sink>(alloc: Global, sink: &mut S, why: ShardRefusal) -> Outcome
    requires { is_work why ≡ false }
    ensures put { IsPut (of_reply (shard_reply why)) result (S.written sink.old) (S.written sink.new) (S.faults sink.old) (S.faults sink.new) }
    ensures status { (result.status ≡ 3) ⊎ (result.status ≡ 5) ⊎ (result.status ≡ 6) }
{
    match shard_reply(alloc, why) {
        Ok(reply) => {
            let put = put_reply(sink, &reply);
            drop(reply);
            put
        }
        Err(_) => Outcome::of(6),
    }
}
