ghost use Rattle.std.specs.Prelude.{◌≡◌, ◌<◌, ◌++◌, OnErr, OnOk, length, max};
ghost use Rattle.gp_queue.specs.Order.{moved_to_front, numbers_between};

use gp_queue::LinkQueue;
use std::alloc::AllocError;

/// As `LinkQueue::to_front`.
pub fn to_front(queue: &mut LinkQueue, number: u32)
    requires { number < length queue.old }
    ensures moved { queue.new ≡ moved_to_front number queue.old }
    ensures len { length queue.new ≡ length queue.old }
{
    queue.to_front(number);
}

/// As `LinkQueue::grow`.
pub fn grow(queue: &mut LinkQueue, count: u32) -> Result<(), AllocError>
    ensures grown { OnOk result (queue.new ≡ queue.old ++ numbers_between (length queue.old) count) }
    ensures len { OnOk result (length queue.new ≡ max (length queue.old) count) }
    ensures unchanged { OnErr result (queue.new ≡ queue.old) }
{
    queue.grow(count)
}
