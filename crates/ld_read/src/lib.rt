//! Traces read by several threads, as if they were read in turn. Each thread reads over a table of its own. What it has
//! read is taken in in the order of the traces, and whatever can't be taken in is read again in its turn.
#![tactic(auto)]

mod ahead;
mod in_turn;
mod sources;
mod taking;
mod unread;

pub use in_turn::{read_all, read_into};
pub use sources::Sources;
pub use unread::{ReadFault, Unread};
