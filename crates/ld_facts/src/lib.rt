//! Facts about lock keys: dependencies between them and marks on them; sets of facts, kept as bits; and the facts of a
//! chain. After `Facts::new` no call takes memory, and none fails. What the facts mean is for `ld_graph`.
#![tactic(auto)]

pub mod bits;
mod chain_facts;
mod chain_words;
mod dependency;
mod fact;
mod facts;
mod laws;
mod pages;
pub mod places;
mod renamed;

pub use chain_facts::{fact_in_slot, fact_slots, lock_of_slot};
pub use chain_words::FactWords;
pub use dependency::{Dependency, kind_at};
pub use fact::{Fact, STATE_COUNT, STATES, fact_total, irq_number, word_total};
pub use facts::Facts;
pub use laws::{
    adding_in_turn_unites, dependencies_have_one_number, facts_are_bits,
    renamed_facts_are_the_image, slots_have_what_is_given, trace_facts_are_the_chains,
};
pub use ld_task::{Kind, Mark};
