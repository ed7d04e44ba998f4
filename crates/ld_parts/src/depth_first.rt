//! Searches over nodes, depth first.

use crate::bit_rows::BitRows;
use std::alloc::{AllocError, Global};

// A depth-first search over nodes by some arrows: what it has visited, and the nodes that it has entered and not yet
// left, each by an arrow from the one before.
#[derive(Drop)]
pub(crate) struct DepthFirst {
    nodes: u16,
    visited: BitRows,
    entered: Vec<u16>,
}

impl DepthFirst {
    // A search that has visited nothing yet. It fails only if memory is refused.
    pub(crate) fn new(alloc: Global, nodes: u16) -> Result<DepthFirst, AllocError> {
        Ok(DepthFirst {
            nodes,
            visited: BitRows::new(alloc, 1, nodes)?,
            entered: Vec::new(alloc),
        })
    }

    // Visits what is reached from the root and wasn't visited before, and returns it in the order in which it is left.
    // Each node is entered once and left once, so twice as many steps as there are nodes are enough.
    pub(crate) fn tree(
        &mut self,
        alloc: Global,
        arrows: &BitRows,
        root: u16,
    ) -> Result<Vec<u16>, AllocError> {
        let mut left = Vec::new(alloc);
        if self.visited.has(0, root) {
            return Ok(left);
        }
        self.enter(root)?;
        for _ in 0..2 * usize::from(self.nodes) {
            let Some(node) = self.entered.last().copied() else {
                break;
            };
            match arrows.first_beyond(node, &self.visited) {
                Some(next) => self.enter(next)?,
                None => {
                    self.entered.pop();
                    left.push(node)?;
                }
            }
        }
        Ok(left)
    }

    // Visits a node.
    fn enter(&mut self, node: u16) -> Result<(), AllocError> {
        self.visited.insert(0, node)?;
        self.entered.push(node)?;
        Ok(())
    }
}
