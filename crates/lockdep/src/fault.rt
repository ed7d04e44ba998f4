//! Why an output wasn't written.

use ld_run::{CondenseFault, RunFault};
use ld_task::StepFault;
use ld_text::WriteFault;
use thiserror::Error;

/// Why an output wasn't written whole.
#[derive(Clone, Copy, PartialEq, Eq, Debug, Error)]
pub enum ReportFault {
    /// A trace isn't well formed: its place among the traces, the number of the record of its first event that isn't
    /// allowed, counted from 1 with the header, and why. Nothing was written.
    #[error("trace {trace}: record {at}: {fault}")]
    Step {
        trace: usize,
        at: usize,
        fault: StepFault,
    },
    /// The run was refused for another reason. Nothing was written.
    #[error("{0}")]
    Run(RunFault),
    /// The facts weren't condensed. Nothing was written.
    #[error("{0}")]
    Condensing(CondenseFault),
    /// Writing failed.
    #[error("{0}")]
    Out(WriteFault),
}
