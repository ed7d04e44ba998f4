//! What no clause says: worked examples with their whole texts, the program's words and lines, and writers that fail.

mod chains;
mod gates;
mod helpers;
mod long;
mod programs;
mod refusals;
mod reports;
mod texts;
mod want_of_memory;
mod writers;
