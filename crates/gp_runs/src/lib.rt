// Whole runs that have a name of their own, that need threads, or that compare what several runs tell. The rows of all tasks are
// the cases of `gp_cases`. They stand beside the program, so that it is not proved a second time for its tests.
#![tactic(auto)]

#[cfg(test)]
mod corrupting;
#[cfg(test)]
mod fixture;
#[cfg(test)]
mod large;
#[cfg(test)]
mod linking;
#[cfg(test)]
mod logs;
#[cfg(test)]
mod opened;
#[cfg(test)]
mod resuming;
#[cfg(test)]
mod tasks;
