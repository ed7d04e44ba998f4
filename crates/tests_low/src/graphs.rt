//! What graphs say about small traces.

mod facts;
mod finds;
mod large;
mod ranks;
mod single_facts;
mod stories;
mod want_of_memory;
