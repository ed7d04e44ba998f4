//! Tests of the crates that take many traces together: boards, runs, and where facts come from.
#![tactic(auto)]

#[cfg(test)]
mod ahead;
#[cfg(test)]
mod boards;
#[cfg(test)]
mod books;
#[cfg(test)]
mod by_lines;
#[cfg(test)]
mod levels;
#[cfg(test)]
mod lines;
#[cfg(test)]
mod odd_texts;
#[cfg(test)]
mod origins;
#[cfg(test)]
mod runs;
