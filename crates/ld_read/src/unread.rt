//! Why traces weren't all read.

use ld_trace::TraceFault;
use thiserror::Error;

/// Why a trace wasn't read.
#[derive(Clone, Copy, PartialEq, Eq, Debug, Error)]
pub enum ReadFault {
    /// Its source can't be opened.
    #[error("it can't be opened")]
    CannotOpen,
    /// It was refused in reading.
    #[error("{0}")]
    Trace(TraceFault),
}

/// The first trace that wasn't read, and why.
#[derive(Clone, Copy, PartialEq, Eq, Debug, Error)]
#[error("trace {place}: {fault}")]
pub struct Unread {
    /// Its place among the traces.
    pub place: usize,
    /// Why it wasn't read.
    pub fault: ReadFault,
}
