//! Why a run isn't completed.

ghost use Rattle.std.specs.Prelude.{◌≡◌};
ghost use Rattle.ld_run.specs.Faults.{run_code_of};

use ld_task::{StepAt, StepFault};
use thiserror::Error;

/// Why a run isn't completed.
#[derive(Clone, Copy, PartialEq, Eq, Debug, Error)]
pub enum RunFault {
    /// N1: the number of workers isn't 1 to 64.
    #[error("the number of workers is not 1 to 64")]
    BadWorkers,
    /// N2: there are more than 4,096 traces.
    #[error("there are more than 4,096 traces")]
    TooManyTraces,
    /// N3: the book and the board don't have the same facts.
    #[error("the book and the workers do not agree on the facts")]
    Unsettled,
    /// N4: memory was refused.
    #[error("out of memory")]
    Memory,
    /// N5: a trace isn't well formed. The place of the first such trace in the list, the place of its first event that
    /// isn't allowed, both counted from 0, and why it isn't allowed.
    #[error("trace {trace} is not well formed at event {place}: {fault}")]
    Refused {
        trace: usize,
        place: usize,
        fault: StepFault,
    },
    /// M1: there are more than 256 keys, and they can't be split into parts of at most 256. As far as a search found,
    /// more than 256 of them all lead to each other by dependencies and interrupt links.
    #[error("more than 256 keys are tangled")]
    TooTangled,
}

impl RunFault {
    /// The fault's number and name, as `N4 Memory`.
    pub fn code(&self) -> &'static str
        ensures { result.now ≡ run_code_of self.now }
    {
        match self {
            RunFault::BadWorkers => "N1 BadWorkers",
            RunFault::TooManyTraces => "N2 TooManyTraces",
            RunFault::Unsettled => "N3 Unsettled",
            RunFault::Memory => "N4 Memory",
            RunFault::Refused { .. } => "N5 Refused",
            RunFault::TooTangled => "M1 TooTangled",
        }
    }
}

// The fault of a trace that isn't well formed.
pub(crate) fn refused_by(trace: usize, first: StepAt) -> RunFault
    ensures { result ≡ RunFault.Refused trace first.place first.fault }
{
    RunFault::Refused {
        trace,
        place: first.place,
        fault: first.fault,
    }
}
