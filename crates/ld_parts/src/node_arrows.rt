//! The arrows of some facts between nodes: one for each key, and one for each interrupt state, through which its links
//! go.

use crate::bit_rows::BitRows;
use crate::ranks::{is_enabled, is_used};
use ld_facts::{Fact, Facts, STATE_COUNT, STATES, irq_number};
use ld_trace::Irq;
use std::alloc::{AllocError, Global};

// For each node, the nodes that arrows lead to from it, and those from which arrows lead to it.
#[derive(Drop)]
pub(crate) struct NodeArrows {
    pub(crate) forwards: BitRows,
    pub(crate) backwards: BitRows,
}

impl NodeArrows {
    // The arrows of the facts: each dependency, and for each state one to its node from each key that is used with the
    // state enabled, and one from its node to each key that is used in it. It fails only if memory is refused.
    pub(crate) fn of(alloc: Global, facts: &Facts) -> Result<NodeArrows, AllocError> {
        let nodes = node_count(facts);
        let mut arrows = NodeArrows {
            forwards: BitRows::new(alloc, nodes, nodes)?,
            backwards: BitRows::new(alloc, nodes, nodes)?,
        };
        arrows.add_dependencies(facts)?;
        for irq in STATES {
            arrows.add_links(facts, irq)?;
        }
        Ok(arrows)
    }

    fn add_dependencies(&mut self, facts: &Facts) -> Result<(), AllocError> {
        let mut n = 0;
        while let Some(number) = facts.next_dependency(n) {
            if let Fact::Dependency { from, to, .. } = Fact::of_number(facts.keys(), number) {
                self.add(from, to)?;
            }
            n = number + 1;
        }
        Ok(())
    }

    // Adds the arrows to and from the node of a state.
    fn add_links(&mut self, facts: &Facts, irq: Irq) -> Result<(), AllocError> {
        let node = facts.keys() + irq_number(irq) as u16;
        for key in 0..facts.keys() {
            if is_enabled(facts, irq, key) {
                self.add(key, node)?;
            }
            if is_used(facts, irq, key) {
                self.add(node, key)?;
            }
        }
        Ok(())
    }

    // Adds an arrow.
    fn add(&mut self, from: u16, to: u16) -> Result<(), AllocError> {
        self.forwards.insert(from, to)?;
        self.backwards.insert(to, from)
    }
}

// How many nodes there are: those of the keys, by their numbers, and then those of the states.
pub(crate) fn node_count(facts: &Facts) -> u16 {
    facts.keys() + STATE_COUNT as u16
}
