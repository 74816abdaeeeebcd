ghost use Rattle.std.specs.Prelude.{◌≡◌, ℕ, ◌+◌, ◌<◌, ◌≤◌, length, vec_capacity, vec_len, All, ◌++◌, option_to_list};
ghost use Rattle.gp_difference.specs.Bounds.{edge_at, tags_of};
ghost use Rattle.gp_difference.specs.Placement.{IsAtRest, Stays};
ghost use Rattle.gp_difference.specs.Lower.{IsInput, Scanning, RelaxGives, Running, SettleGives, LowerGives, Closing, TryGives, IsClosed, walk_of};

use crate::bounds::Bounds;
use crate::placement::Placement;
use gp_clause::Edge;

/// What trying a new bound found: places that keep it, lower labels, or a walk of so many bounds that closes a
/// negative cycle with it.
#[derive(Clone, Copy, PartialEq, Eq)]
pub enum Tried {
    Unchanged,
    Lowered,
    Closed(usize),
}

/// Lowers the first point of a bound out of the settled point where the labels break the bound, and says whether this
/// closes a cycle.
fn relax(bounds: &Bounds, new: Edge, run: &mut Placement, number: usize) -> bool
    requires input { IsInput bounds.now.bounds new run.old.places }
    requires small { number < length bounds.now.bounds }
    requires scan { (done : ℕ) × Scanning bounds.now.bounds new run.old done (edge_at bounds.now.bounds number).b (number + 1) }
    ensures gives { (done : ℕ) → Scanning bounds.now.bounds new run.old done (edge_at bounds.now.bounds number).b (number + 1) →
        RelaxGives bounds.now.bounds new run.new done (edge_at bounds.now.bounds number).b number result }
    ensures stays { Stays run.old run.new }
{
    let edge = bounds.get(number).edge;
    let first = edge.a as usize;
    let label = run.label(edge.b as usize) + edge.c;
    if run.label(first) <= label {
        return false;
    }
    if edge.a == new.b {
        return true;
    }
    if run.label(first) < run.place(first) {
        run.lower(first, label, number);
        return false;
    }
    run.fall(first, label, number);
    false
}

/// Relaxes the bounds out of the point that was settled last, and gives one that closes a cycle.
fn scan(bounds: &Bounds, new: Edge, run: &mut Placement, point: usize) -> Option<usize>
    requires input { IsInput bounds.now.bounds new run.old.places }
    requires points { bounds.now.points ≡ length run.old.places }
    requires scan { (done : ℕ) × Scanning bounds.now.bounds new run.old done point (length bounds.now.bounds) }
    ensures gives { (done : ℕ) → Scanning bounds.now.bounds new run.old done point (length bounds.now.bounds) →
        SettleGives bounds.now.bounds new run.new done result }
    ensures stays { Stays run.old run.new }
{
    let mut left = bounds.latest(point);
    while left > 0 {
        let number = left - 1;
        if relax(bounds, new, run, number) {
            return Some(number);
        }
        left = bounds.earlier(number);
    }
    None
}

/// Lowers points until all bounds are kept, and gives a bound that closes a cycle where there is one. Each turn
/// settles the open point that fell most.
fn lower(bounds: &Bounds, new: Edge, run: &mut Placement) -> Option<usize>
    requires input { IsInput bounds.now.bounds new run.old.places }
    requires points { bounds.now.points ≡ length run.old.places }
    requires run { Running bounds.now.bounds new run.old 0 }
    ensures gives { LowerGives bounds.now.bounds new run.new result }
    ensures stays { Stays run.old run.new }
{
    'settling: for _ in 0..run.places().len() {
        let Some(point) = run.most() else {
            return None;
        };
        run.close(point);
        if let Some(number) = scan(bounds, new, run, point) {
            return Some(number);
        }
    }
    None
}

/// Writes the numbers of the bounds from the new bound's second point to its first, and says how many they are.
fn trace(bounds: &Bounds, new: Edge, run: &mut Placement, closing: usize) -> usize
    requires size { length run.old.walk ≡ length run.old.places }
    requires input { IsInput bounds.now.bounds new run.old.places }
    requires closing { Closing bounds.now.bounds new run.old closing }
    ensures closed { IsClosed bounds.now.bounds new run.new.walk result }
    ensures same { run.new ≡ record run.old { walk = run.new.walk } }
    ensures size { length run.new.walk ≡ length run.old.walk }
{
    run.write_walk(0, closing);
    let mut count = 1;
    let mut point = bounds.get(closing).edge.b as usize;
    'tracing: while run.via(point) != bounds.len() {
        let number = run.via(point);
        run.write_walk(count, number);
        count += 1;
        point = bounds.get(number).edge.b as usize;
    }
    count
}

/// Tries a new edge over the bounds, from places that keep them.
pub fn try_edge(bounds: &Bounds, new: Edge, run: &mut Placement) -> Tried
    requires input { IsInput bounds.now.bounds new run.old.places }
    requires points { bounds.now.points ≡ length run.old.places }
    requires rest { IsAtRest run.old }
    ensures { TryGives bounds.now.bounds new run.old run.new result }
{
    let label = run.place(new.b as usize) + new.c;
    let first = new.a as usize;
    if run.place(first) <= label {
        return Tried::Unchanged;
    }
    if new.a == new.b {
        return Tried::Closed(0);
    }
    run.begin();
    run.fall(first, label, bounds.len());
    match lower(bounds, new, run) {
        None => {
            run.keep();
            Tried::Lowered
        }
        Some(number) => {
            let count = trace(bounds, new, run, number);
            run.restore();
            Tried::Closed(count)
        }
    }
}

/// Writes the tags of the bounds of these numbers, in their order.
pub fn put_tags(bounds: &Bounds, walk: &[usize], tags: &mut Vec<u32>)
    requires numbers { All (λ number. number < length bounds.now.bounds) walk.now }
    requires room { length walk.now + 1 ≤ vec_capacity tags.old }
    ensures tags { tags.new.items ≡ tags_of (walk_of bounds.now.bounds walk.now) }
    ensures room { vec_capacity tags.new ≡ vec_capacity tags.old }
    ensures fits { vec_len tags.new ≤ length walk.now }
{
    tags.clear();
    for &number in walk {
        push_tag(tags, bounds.get(number).tag);
    }
}

/// Adds the tag of a bound, where it has one.
fn push_tag(tags: &mut Vec<u32>, tag: Option<u32>)
    requires { vec_len tags.old < vec_capacity tags.old }
    ensures tags { tags.new.items ≡ tags.old.items ++ option_to_list tag }
    ensures room { vec_capacity tags.new ≡ vec_capacity tags.old }
    ensures fits { vec_len tags.new ≤ vec_len tags.old + 1 }
{
    if let Some(tag) = tag {
        tags.push_reserved(tag);
    }
}
