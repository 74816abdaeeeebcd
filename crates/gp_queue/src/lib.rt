// A queue of the numbers 0..n in an order, from which a search takes its decisions: the front is
// tried first, and a number that took part in a conflict moves to the front ("variable move to
// front", here without time stamps). Each step costs a fixed number of reads and writes, whatever
// n is, since the order is a ring of links in two arrays. Numbers stand in place of pointers, so
// the arrays may move when they grow. Only making and growing a queue takes memory.
#![tactic(auto)]

mod links;
mod order;

pub use order::LinkQueue;
