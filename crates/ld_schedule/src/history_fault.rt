//! Why steps make no history.

ghost use Rattle.std.specs.Prelude.{◌≡◌};

use std::alloc::{AllocError, AllocFailed};
use thiserror::Error;

/// Why a step can't come after the steps before it.
#[derive(Clone, Copy, PartialEq, Eq, Debug, Error)]
pub enum StepFault {
    /// A lock is taken that another task has in a mode that blocks it.
    #[error("another task has the lock that is taken")]
    TakenByAnother,
    /// A lock is taken that the task has.
    #[error("the task has the lock that it takes")]
    TakenAgain,
    /// A lock is released that the task doesn't have, or read again that it doesn't have as a reader.
    #[error("the task doesn't have the lock")]
    NotHeld,
    /// A message is given that was given before.
    #[error("the message was given before")]
    GivenTwice,
    /// A message is got that wasn't given before.
    #[error("the message wasn't given before")]
    NotGiven,
}

/// Why steps make no history.
#[derive(Clone, Copy, PartialEq, Eq, Debug, Error)]
pub enum HistoryFault {
    /// The step at this position, counted from 0, is the first that can't come where it stands.
    #[error("step {position}: {fault}")]
    NotWellFormed { position: u32, fault: StepFault },
    /// There are more than `MAX_STEPS` steps.
    #[error("there are too many steps")]
    TooManySteps,
    /// Memory was refused.
    #[error("memory was refused")]
    Memory,
}

impl From<AllocError> for HistoryFault {
    ghost use Rattle.ld_schedule.specs.declared.history_fault.HistoryFault.TheVariants.{Memory};

    ghost from_gives = { λ _ e. e ≡ Memory };

    fn from(_error: AllocError) -> HistoryFault {
        HistoryFault::Memory
    }
}

impl<T: Drop> From<AllocFailed<T>> for HistoryFault {
    ghost use Rattle.ld_schedule.specs.declared.history_fault.HistoryFault.TheVariants.{Memory};

    ghost from_gives = { λ _ e. e ≡ Memory };

    fn from(_error: AllocFailed<T>) -> HistoryFault {
        HistoryFault::Memory
    }
}
