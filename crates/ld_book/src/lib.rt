//! The book that all workers write into: a journal of chains, together with the facts, the totals and the flag that
//! belong to it.
//!
//! Everything that a `Book` returns is derived from its journal. It keeps each distinct chain once. A chain that brings
//! a new fact needs no look-up, and a known one needs one. A `LockedBook` is a book that several threads write into,
//! one entry at a time.
#![tactic(auto)]

mod book;
mod chains;
mod fault;
mod journal;
mod locked;

pub use book::{Book, News, Totals};
pub use fault::BookFault;
pub use locked::LockedBook;
