// The generator of recordings. A small simulated program runs: at each step one thread starts another,
// uses or authorises an object, takes or gives back a lock, or reads or writes a variable, as the draws
// of a linear congruential generator decide. What each thread did, cut into windows of 200 events, is a
// recording, and three numbers, the seed, how many threads and how many events, determine it. `make`
// gives the files of that recording, with the one property that every such recording is made for, and
// `write_recording` writes them into a folder.
#![tactic(auto)]

mod action;
mod files;
mod generator;
mod lines;
mod making;
mod manifest;
mod program;
mod recipe;
mod writing;

pub use making::make;
pub use recipe::Recipe;
pub use writing::write_recording;
