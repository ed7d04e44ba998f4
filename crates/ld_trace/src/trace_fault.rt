//! Why a trace was refused.

ghost use Rattle.std.specs.Prelude.{◌≡◌};
ghost use Rattle.ld_trace.specs.TraceFaults.{code_of};

use thiserror::Error;

/// What was wrong with a record of a trace, or with getting it.
#[derive(Clone, Copy, PartialEq, Eq, Debug, Error)]
pub enum TraceFaultKind {
    /// The first record isn't the header, or there is none.
    #[error("the first record isn't `lockdep,1`")]
    NoHeader,
    /// The first field is unknown, the number of fields is wrong, or the state is neither `hardirq` nor `softirq`.
    #[error("no such record")]
    BadRecord,
    /// The name isn't 1 to 64 bytes of 0x21 to 0x7E.
    #[error("a lock name is 1 to 64 visible ASCII characters")]
    BadName,
    /// The subclass isn't one digit 0 to 7.
    #[error("a subclass is one digit 0 to 7")]
    BadSub,
    /// The mode is unknown.
    #[error("no such mode")]
    BadMode,
    /// The record would add one more key than the table has room for: in a table made by `KeyTable::new`, the 257th.
    #[error("the table has no room for another lock key")]
    TooManyKeys,
    /// It is the 1,000,001st record of an event, whatever its fields.
    #[error("a trace has at most 1,000,000 events")]
    TooManyRecords,
    /// The records' source failed.
    #[error("the trace can't be read")]
    Source,
    /// Memory was refused while the record was read or stored.
    #[error("out of memory")]
    Memory,
}

impl TraceFaultKind {
    /// Its number and name, as `T2 BadRecord`.
    pub fn code(&self) -> &'static str
        ensures { result.now ≡ code_of self.now }
    {
        match self {
            TraceFaultKind::NoHeader => "T1 NoHeader",
            TraceFaultKind::BadRecord => "T2 BadRecord",
            TraceFaultKind::BadName => "T3 BadName",
            TraceFaultKind::BadSub => "T4 BadSub",
            TraceFaultKind::BadMode => "T5 BadMode",
            TraceFaultKind::TooManyKeys => "T6 TooManyKeys",
            TraceFaultKind::TooManyRecords => "T7 TooManyRecords",
            TraceFaultKind::Source => "T8 Source",
            TraceFaultKind::Memory => "T9 Memory",
        }
    }
}

/// Why a trace was refused, and at which record.
#[derive(Clone, Copy, PartialEq, Eq, Debug, Error)]
#[error("record {at}: {kind}")]
pub struct TraceFault {
    /// What was wrong.
    pub kind: TraceFaultKind,
    /// The number of the refused record, counted from 1 with the header.
    pub at: usize,
}

impl TraceFault {
    /// The number and name of what was wrong, as `T2 BadRecord`.
    pub fn code(&self) -> &'static str
        ensures { result.now ≡ code_of self.now.kind }
    {
        self.kind.code()
    }
}
