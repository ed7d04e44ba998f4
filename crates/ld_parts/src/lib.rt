//! The questions of a graph about more keys than a graph takes: the keys are ranked so that no dependency and no interrupt
//! link goes down, and those of each rank have a graph of their own. Once its parts are made, no call takes memory, and
//! none fails.
#![tactic(auto)]

mod bit_rows;
mod depth_first;
mod home;
mod laws;
mod node_arrows;
mod pair;
mod part;
mod parted_graph;
mod parting_fault;
mod ranking;
mod ranks;
mod settled;

pub use laws::findings_are_those_of_the_parts;
pub use parted_graph::PartedGraph;
pub use parting_fault::PartingFault;
pub use ranking::{find_ranks, find_ranks_of};
pub use ranks::{Ranks, are_ranked};
pub use settled::Settled;
