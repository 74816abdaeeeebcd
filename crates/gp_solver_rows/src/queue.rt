// The order in which a queue has its numbers.
ghost use Rattle.std.specs.Prelude.{◌≡◌, IfOk};

use gp_queue::LinkQueue;
use std::alloc::{AllocError, Global};
use std::process::Abort;

// The numbers in their order, which the contracts of `first` and `after` give to any caller.
fn numbers(alloc: Global, queue: &LinkQueue) -> Result<Vec<u32>, AllocError>
    ensures { IfOk result (λ all. all.items ≡ queue.now) }
{
    let mut all = Vec::new(alloc);
    let mut at = queue.first();
    while let Some(i) = at {
        all.push(i)?;
        at = queue.after(i);
    }
    Ok(all)
}

fn has_order(rt: &impl Abort, alloc: Global, queue: &LinkQueue, order: &[u32]) -> bool {
    let all = numbers(alloc, queue).expect(rt, "memory");
    all.as_slice() == order
}

// Whether the queue has this order once a number was put to its front.
fn puts_first(
    rt: &impl Abort,
    alloc: Global,
    queue: &mut LinkQueue,
    number: u32,
    order: &[u32],
) -> bool {
    assert!(rt; number < queue.len());
    queue.to_front(number);
    has_order(rt, alloc, queue, order)
}

fn all_put_first(
    rt: &impl Abort,
    alloc: Global,
    queue: &mut LinkQueue,
    rows: &[(u32, [u32; 4])],
) -> bool {
    let mut all = true;
    for (number, order) in rows {
        all &= puts_first(rt, alloc, queue, *number, order);
    }
    all
}

// Whether a queue of four numbers ends with this one.
fn ends_with(rt: &impl Abort, queue: &LinkQueue, number: u32) -> bool {
    assert!(rt; queue.len() == 4 && number < 4);
    queue.after(number).is_none()
}

// Whether the queue has this order once it grew.
fn grows_to(
    rt: &impl Abort,
    alloc: Global,
    queue: &mut LinkQueue,
    size: u32,
    order: &[u32],
) -> bool {
    queue.grow(size).expect(rt, "memory");
    has_order(rt, alloc, queue, order)
}

fn keeps_the_rest(rt: &impl Abort, alloc: Global, queue: &mut LinkQueue) -> bool {
    const ROWS: [(u32, [u32; 4]); 3] = [(2, [2, 0, 1, 3]), (2, [2, 0, 1, 3]), (3, [3, 2, 0, 1])];
    let first = has_order(rt, alloc, queue, &[0, 1, 2, 3]);
    let rest = all_put_first(rt, alloc, queue, &ROWS);
    let ends = ends_with(rt, queue, 1);
    let grown = grows_to(rt, alloc, queue, 5, &[3, 2, 0, 1, 4]);
    first && rest && ends && grown
}

#[test]
fn keeps_the_order_of_the_rest(rt: HostRuntime) {
    let mut queue = LinkQueue::new(rt.alloc(), 4).expect(&rt, "memory");
    let keeps = keeps_the_rest(&rt, rt.alloc(), &mut queue);
    drop(queue);
    assert!(rt; keeps);
}

// A queue that grows, and does not where it is asked to have fewer.
fn grows(rt: &impl Abort, alloc: Global, queue: &mut LinkQueue) -> bool {
    let none = queue.first().is_none();
    let grown = grows_to(rt, alloc, queue, 2, &[0, 1]);
    queue.grow(1).expect(rt, "memory");
    none && grown && queue.len() == 2
}

#[test]
fn grows_from_nothing(rt: HostRuntime) {
    let mut queue = LinkQueue::new(rt.alloc(), 0).expect(&rt, "memory");
    let grows = grows(&rt, rt.alloc(), &mut queue);
    drop(queue);
    assert!(rt; grows);
}
