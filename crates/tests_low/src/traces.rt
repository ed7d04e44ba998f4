//! What no clause says: that calls succeed, worked examples, the format's tables, and readers that are slow or fail.

mod naming;
mod reading;
mod want_of_memory;
mod writing;
