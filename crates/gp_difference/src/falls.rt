ghost use Rattle.std.specs.Prelude.{◌≡◌, ℕ, ◌/◌, ◌<◌, ◌≤◌, pos, ◌≤ℤ◌, ◌<ℤ◌, length, replicate, IfOk, slice_set};
ghost use Rattle.gp_difference.specs.Falls.{AreHeaped, AreHeapedBut, IsBelow, IsMost, MayRise, MaySink, fall_at};

use crate::order::Order;
use std::alloc::{AllocError, Global};
use std::marker::Model;
use std::mem::replace;

/// A number for each point, with the point of the greatest one found at once. The points whose numbers are above zero
/// stand first in an order of all: a binary heap with positions, as for Dijkstra's algorithm with decrease-key. Below
/// spot k are spots 2 * k + 1 and 2 * k + 2, and the order tells the spot of a point whose number is written.
#[derive(Drop)]
pub struct Falls {
    numbers: Vec<i64>,
    order: Order,
    count: usize,
}

impl Model for Falls {
    ghost use Rattle.std.specs.Prelude.{ℤ, List};
    ghost use Rattle.gp_difference.specs.Falls.{AreHeaped};

    ghost Value = { List ℤ };

    ghost view = { λ f. f.numbers.items };

    ghost invariant = { λ f. AreHeaped f.numbers.items f.order f.count };
}

impl Falls {
    /// Zero for each point.
    pub fn new(alloc: Global, points: usize) -> Result<Falls, AllocError>
        requires { points ≤ 65536 }
        ensures { IfOk result (λ falls. falls ≡ replicate points (pos 0)) }
    {
        let mut numbers = Vec::new(alloc);
        numbers.resize(points, 0)?;
        let order = Order::new(alloc, points)?;
        Ok(Falls {
            numbers,
            order,
            count: 0,
        })
    }

    /// Writes the number of a point. It takes time by the logarithm of how many numbers are above zero.
    pub fn put(&mut self, point: usize, number: i64)
        requires { point < length self.old }
        ensures { self.new ≡ slice_set self.old point number }
    {
        let before = replace(&mut self.numbers[point], number);
        let spot = self.order.spot(point);
        self.count = settle(
            &self.numbers,
            &mut self.order,
            self.count,
            spot,
            before,
            number,
        );
    }

    /// The point with the greatest number, where one is above zero.
    pub fn most(&self) -> Option<usize>
        requires { 0 < length self.now }
        ensures { IsMost self.now result }
    {
        let point = self.order.at(0);
        if self.count == 0 {
            return None;
        }
        Some(point)
    }
}

/// Puts a point whose number was written where it belongs, and tells how many numbers are above zero now.
fn settle(
    numbers: &[i64],
    order: &mut Order,
    count: usize,
    spot: usize,
    before: i64,
    number: i64,
) -> usize
    requires heaped { AreHeapedBut numbers.now order.old count spot before }
    requires number { number ≡ fall_at numbers.now order.old spot }
    ensures { AreHeaped numbers.now order.new result }
{
    if number > 0 {
        if before > 0 {
            mend(numbers, order, count, spot, before);
            return count;
        }
        order.exchange(spot, count);
        rise(numbers, order, count);
        return count + 1;
    }
    if before <= 0 {
        return count;
    }
    let last = count - 1;
    order.exchange(spot, last);
    if spot < last {
        mend(numbers, order, last, spot, before);
    }
    last
}

/// Moves the point at a spot up or down, by whether a greater number than before stands there.
fn mend(numbers: &[i64], order: &mut Order, count: usize, spot: usize, before: i64)
    requires heaped { AreHeapedBut numbers.now order.old count spot before }
    requires spot { spot < count }
    requires number { pos 0 <ℤ fall_at numbers.now order.old spot }
    ensures { AreHeaped numbers.now order.new count }
{
    if number_at(numbers, order, spot) > before {
        rise(numbers, order, spot);
    } else {
        sink(numbers, order, count, spot);
    }
}

/// Exchanges a point with the one above it, until that one's number is no less.
fn rise(numbers: &[i64], order: &mut Order, from: usize)
    requires size { length order.old ≡ length numbers.now }
    requires from { from < length order.old }
    ensures { (count : ℕ) → MayRise numbers.now order.old count from → AreHeaped numbers.now order.new count }
{
    let number = number_at(numbers, order, from);
    let mut spot = from;
    while spot > 0 {
        let above = (spot - 1) / 2;
        if number <= number_at(numbers, order, above) {
            return;
        }
        order.exchange(spot, above);
        spot = above;
    }
}

/// Exchanges a point with the greater one below it, until that one's number is no greater.
fn sink(numbers: &[i64], order: &mut Order, count: usize, from: usize)
    requires { MaySink numbers.now order.old count from }
    ensures { AreHeaped numbers.now order.new count }
{
    let number = number_at(numbers, order, from);
    let mut spot = from;
    while spot < count / 2 {
        let below = greater_below(numbers, order, count, spot);
        if number_at(numbers, order, below) <= number {
            return;
        }
        order.exchange(spot, below);
        spot = below;
    }
}

/// Of the spots below a spot, one with the greatest number.
fn greater_below(numbers: &[i64], order: &Order, count: usize, spot: usize) -> usize
    requires size { length order.now ≡ length numbers.now }
    requires few { count ≤ length order.now }
    requires some { spot < count / 2 }
    ensures below { IsBelow spot result }
    ensures within { result < count }
    ensures greatest { (below : ℕ) → IsBelow spot below → below < count → fall_at numbers.now order.now below ≤ℤ fall_at numbers.now order.now result }
{
    let first = 2 * spot + 1;
    let second = first + 1;
    if second < count && number_at(numbers, order, first) < number_at(numbers, order, second) {
        second
    } else {
        first
    }
}

/// The number of the point at a spot.
fn number_at(numbers: &[i64], order: &Order, spot: usize) -> i64
    requires size { length order.now ≡ length numbers.now }
    requires spot { spot < length order.now }
    ensures { result ≡ fall_at numbers.now order.now spot }
{
    numbers[order.at(spot)]
}
