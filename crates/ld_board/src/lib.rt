//! A board, which threads share without waiting for one another: they claim numbers from it, each of which is given out
//! once, and put facts on it, which the others then see.
#![tactic(auto)]

mod board;
mod board_fault;
mod board_words;
mod seat;
mod view;

pub use board::{Board, MAX_SEATS};
pub use board_fault::BoardFault;
pub use seat::{MAX_CLAIMS, Seat};
