// The worked rows of the solver side: small problems, and what is due for each, written down by hand. They stand beside
// the crates and call nothing but what these make public, so that no crate is proved a second time for its tests.
#![tactic(auto)]

#[cfg(test)]
mod clause;
#[cfg(test)]
mod derivation;
#[cfg(test)]
mod difference;
#[cfg(test)]
mod fixture;
#[cfg(test)]
mod inbox;
#[cfg(test)]
mod meeting;
#[cfg(test)]
mod memory_mail;
#[cfg(test)]
mod passing;
#[cfg(test)]
mod queue;
#[cfg(test)]
mod sat;
#[cfg(test)]
mod search;
#[cfg(test)]
mod small_cones;
#[cfg(test)]
mod working;
