//! Runs over many traces: workers that walk them in threads, and the facts of all traces together.
#![tactic(auto)]

mod condense_fault;
mod condensing;
mod fault;
mod gate;
mod known_steps;
mod news;
mod runs;
mod settling;
mod shares;
mod surveys;
mod trace_facts;
mod worker;

pub use condense_fault::CondenseFault;
pub use condensing::condense;
pub use fault::RunFault;
pub use gate::{Gate, OpenGate};
pub use ld_board::{Board, BoardFault, MAX_CLAIMS, MAX_SEATS, Seat};
pub use ld_parts::Settled;
pub use ld_trace::MAX_TRACES;
pub use runs::{MAX_WORKERS, run};
pub use settling::settle;
pub use surveys::{facts_at, facts_of};
pub use worker::{Worked, work};
