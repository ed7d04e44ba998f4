//! Finding ranks by which no arrow of some facts goes down. What is found is checked, by `are_ranked`, before it is
//! used.

use crate::depth_first::DepthFirst;
use crate::node_arrows::{NodeArrows, node_count};
use crate::ranks::Ranks;
use ld_facts::Facts;
use ld_trace::GRAPH_KEYS;
use std::alloc::{AllocError, Global};

/// Ranks by which no arrow of the facts goes down, numbered from 0 on. Keys that reach each other by arrows have the
/// same rank. Neighbouring parts are put together as long as they have at most 256 keys, so that there are few ranks:
/// one for at most 256 keys, and at most 63 for 8,192 if no part has more than 256. It fails only if memory is refused.
/// No contract says what is found: a caller asks `are_ranked`.
pub fn find_ranks(alloc: Global, facts: &Facts) -> Result<Ranks, AllocError> {
    find_ranks_of(alloc, facts, usize::from(GRAPH_KEYS))
}

/// Such ranks, with parts put together as long as they have at most `most` keys.
pub fn find_ranks_of(alloc: Global, facts: &Facts, most: usize) -> Result<Ranks, AllocError> {
    let keys = usize::from(facts.keys());
    let mut ranking = Ranking {
        ranks: vec![in alloc; 0; keys]?,
        most,
        rank: 0,
        count: 0,
    };
    if keys > most {
        let arrows = NodeArrows::of(alloc, facts)?;
        ranking.add_parts(alloc, &arrows, node_count(facts))?;
    }
    Ok(Ranks::of(ranking.ranks))
}

// Ranks that are given to one part after the other.
#[derive(Drop)]
struct Ranking {
    // The rank of each key that has one.
    ranks: Vec<u16>,
    // How many keys may have a rank, if they aren't all of one part.
    most: usize,
    // The rank of the last part.
    rank: u16,
    // How many keys have it.
    count: usize,
}

impl Ranking {
    // Gives ranks to the strongly connected parts, in the order of the arrows. They are found by two searches: the
    // first leaves a node only after all that is reached from it, so the node that it leaves last is of a first part;
    // only that part leads there by arrows, and so on with the nodes that it left before.
    fn add_parts(
        &mut self,
        alloc: Global,
        arrows: &NodeArrows,
        nodes: u16,
    ) -> Result<(), AllocError> {
        let mut search = DepthFirst::new(alloc, nodes)?;
        let left = leaving_order(alloc, arrows, nodes)?;
        for root in left.iter().rev() {
            let part = search.tree(alloc, &arrows.backwards, *root)?;
            self.add_part(&part);
        }
        Ok(())
    }

    // Gives a rank to the keys of a part: the last rank, or the next one if they would then be too many.
    fn add_part(&mut self, part: &[u16]) {
        let keys = self.ranks.len();
        let count = part
            .iter()
            .filter(|node| usize::from(**node) < keys)
            .count();
        if self.count > 0 && self.count.saturating_add(count) > self.most {
            self.rank = self.rank.saturating_add(1);
            self.count = 0;
        }
        self.count = self.count.saturating_add(count);
        for node in part {
            let key = usize::from(*node);
            if key < self.ranks.len() {
                self.ranks[key] = self.rank;
            }
        }
    }
}

// The nodes in the order in which a search by the arrows leaves them.
fn leaving_order(alloc: Global, arrows: &NodeArrows, nodes: u16) -> Result<Vec<u16>, AllocError> {
    let mut search = DepthFirst::new(alloc, nodes)?;
    let mut left = Vec::new(alloc);
    for root in 0..nodes {
        let tree = search.tree(alloc, &arrows.forwards, root)?;
        left.extend_from_slice(&tree)?;
    }
    Ok(left)
}
