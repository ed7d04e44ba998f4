//! Why an event is refused.

ghost use Rattle.std.specs.Prelude.{◌≡◌};

use thiserror::Error;

/// Why an event isn't allowed after the events before it.
#[derive(Clone, Copy, PartialEq, Eq, Debug, Error)]
pub enum StepFault {
    /// A release of a key of which no lock is held in the frame.
    #[error("the frame holds no lock of the key that is given back")]
    NotHeld,
    /// An acquisition while 48 locks are kept over all open frames.
    #[error("48 locks are held already")]
    TooDeep,
    /// An entry that the frame or its flags don't allow.
    #[error("the interrupt can't come here")]
    BadEnter,
    /// Leaving the task frame.
    #[error("the task frame can't be left")]
    LeaveTask,
    /// Leaving a frame with a lock held in it.
    #[error("a lock is held in the frame that is left")]
    LeaveHeld,
    /// A flag changed in a hardirq frame, or softirqs changed in a softirq frame.
    #[error("the flag can't change in this frame")]
    BadFlag,
}

impl StepFault {
    ghost use Rattle.ld_task.specs.Faults.{code_of};

    /// The fault's number and name, as `S1 NotHeld`.
    pub fn code(&self) -> &'static str
        ensures { result.now ≡ code_of self.now }
    {
        match self {
            StepFault::NotHeld => "S1 NotHeld",
            StepFault::TooDeep => "S2 TooDeep",
            StepFault::BadEnter => "S3 BadEnter",
            StepFault::LeaveTask => "S4 LeaveTask",
            StepFault::LeaveHeld => "S5 LeaveHeld",
            StepFault::BadFlag => "S6 BadFlag",
        }
    }
}

/// The first event of a trace that isn't allowed.
#[derive(Clone, Copy, PartialEq, Eq, Debug, Error)]
#[error("event {place}: {fault}")]
pub struct StepAt {
    /// Why it isn't allowed.
    pub fault: StepFault,
    /// Its position, counted from 0.
    pub place: usize,
}
