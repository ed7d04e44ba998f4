//! Findings as values: what was found in the facts of many traces, for each fact that a finding is made of its first occurrence,
//! by trace and position, and what speaks against the finding, over all its occurrences.
#![tactic(auto, using(crate::proofs::Starts::starts))]

mod asked;
mod asker;
mod choices;
mod ends;
mod evidence;
mod explainer;
mod finding;
mod findings;
mod found;
mod guard;
mod guards;
mod laws;
mod levels;
mod naming;
mod origins;
mod plan;
mod questions;
mod settling;
mod sightings;
mod verdict;
mod verdicts;
mod whereabouts;

pub use asked::Asked;
pub use ends::End;
pub use evidence::Evidence;
pub use finding::{Finding, GateNote, Order};
pub use findings::findings_of;
pub use found::{Dependency, Found, KINDS, has_dependency, is_used_in};
pub use guard::Guard;
pub use guards::Guards;
pub use laws::{circles_of_locks_are_seen, own_names_change_nothing};
pub use levels::Levels;
pub use naming::Naming;
pub use origins::{Origin, Origins};
pub use settling::{SettledLevels, SettledTypes};
pub use sightings::Sightings;
use std::alloc::AllocError;
pub use verdict::{Between, Verdict, count_ranked, has_finding};
pub use verdicts::verdicts_of;
pub use whereabouts::Whereabouts;

// What is made, unless memory is refused.
pub(crate) type Tried<T> = Result<T, AllocError>;
