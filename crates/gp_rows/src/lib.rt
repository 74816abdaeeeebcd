// Rows of the outside: what folders and sinks answer, over memory and at the edges, and when workers meet at a gate. They are
// tests, since a text cannot say them, and stand here so that the crate is not proved twice.
#![tactic(auto)]

#[cfg(test)]
mod files;
#[cfg(test)]
mod gates;
#[cfg(test)]
mod outside;
