//! Tests of the lower crates: what traces, tasks, graphs and books return, by example. They are in a crate of their own
//! so that the crates that they test are proved once. `steps` has what all tests make their traces of.
#![tactic(auto)]

#[cfg(test)]
mod books;
#[cfg(test)]
mod graphs;
pub mod steps;
#[cfg(test)]
mod tasks;
#[cfg(test)]
mod traces;
