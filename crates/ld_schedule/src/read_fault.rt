//! Why the text of a history was refused.

ghost use Rattle.std.specs.Prelude.{◌≡◌};
ghost use Rattle.ld_schedule.specs.ReadFaults.{code_of};

use std::alloc::AllocFailed;
use thiserror::Error;

/// What was wrong with a record of a history, or with getting it.
#[derive(Clone, Copy, PartialEq, Eq, Debug, Error)]
pub enum ReadFaultKind {
    /// The first record isn't the header, or there is none.
    #[error("the first record isn't `history,1`")]
    NoHeader,
    /// The verb is unknown, the number of fields is wrong, the message isn't a decimal number below 2^32 without leading
    /// zeros, or a lock is declared that was named before.
    #[error("no such record")]
    BadRecord,
    /// The name isn't 1 to 64 bytes of 0x21 to 0x7E.
    #[error("a name is 1 to 64 visible ASCII characters")]
    BadName,
    /// The mode is unknown.
    #[error("no such mode")]
    BadMode,
    /// The record would name one more task, lock or message than a history may have.
    #[error("a history has at most 268,435,456 names")]
    TooManyNames,
    /// It is one more record than a history may have.
    #[error("a history has at most 268,435,456 records after the first")]
    TooManyRecords,
    /// The records' source failed.
    #[error("the history can't be read")]
    Source,
    /// Memory was refused while the record was read or stored.
    #[error("out of memory")]
    Memory,
}

impl ReadFaultKind {
    /// Its number and name, as `H2 BadRecord`.
    pub fn code(&self) -> &'static str
        ensures { result.now ≡ code_of self.now }
    {
        match self {
            ReadFaultKind::NoHeader => "H1 NoHeader",
            ReadFaultKind::BadRecord => "H2 BadRecord",
            ReadFaultKind::BadName => "H3 BadName",
            ReadFaultKind::BadMode => "H4 BadMode",
            ReadFaultKind::TooManyNames => "H5 TooManyNames",
            ReadFaultKind::TooManyRecords => "H6 TooManyRecords",
            ReadFaultKind::Source => "H7 Source",
            ReadFaultKind::Memory => "H8 Memory",
        }
    }
}

impl<T: Drop> From<AllocFailed<T>> for ReadFaultKind {
    ghost use Rattle.ld_schedule.specs.declared.read_fault.ReadFaultKind.TheVariants.{Memory};

    ghost from_gives = { λ _ kind. kind ≡ Memory };

    fn from(_error: AllocFailed<T>) -> ReadFaultKind {
        ReadFaultKind::Memory
    }
}

/// Why the text of a history was refused, and at which record.
#[derive(Clone, Copy, PartialEq, Eq, Debug, Error)]
#[error("record {at}: {kind}")]
pub struct ReadFault {
    /// What was wrong.
    pub kind: ReadFaultKind,
    /// The number of the refused record, counted from 1 with the header.
    pub at: usize,
}
