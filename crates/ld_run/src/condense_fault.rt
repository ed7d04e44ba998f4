//! Why facts aren't condensed.

ghost use Rattle.std.specs.Prelude.{◌≡◌};
ghost use Rattle.ld_run.specs.Faults.{condense_code_of};

use std::alloc::AllocError;
use thiserror::Error;

/// Why facts aren't condensed.
#[derive(Clone, Copy, PartialEq, Eq, Debug, Error)]
pub enum CondenseFault {
    /// E1: the trace that was made doesn't have exactly the facts, for example because a key of theirs isn't in the
    /// order.
    #[error("the condensed trace does not have the same facts")]
    Unequal,
    /// E2: memory was refused.
    #[error("out of memory")]
    Memory,
    /// E3: the trace would have more than 1,000,000 events.
    #[error("the condensed trace would have more than 1,000,000 events")]
    TooLong,
}

impl CondenseFault {
    /// The fault's number and name, as `E2 Memory`.
    pub fn code(&self) -> &'static str
        ensures { result.now ≡ condense_code_of self.now }
    {
        match self {
            CondenseFault::Unequal => "E1 Unequal",
            CondenseFault::Memory => "E2 Memory",
            CondenseFault::TooLong => "E3 TooLong",
        }
    }
}

impl From<AllocError> for CondenseFault {
    ghost use Rattle.std.specs.Prelude.{◌≡◌};
    ghost use Rattle.ld_run.specs.declared.condense_fault.CondenseFault.TheVariants.{Memory};

    ghost from_gives = { λ _ e. e ≡ Memory };

    fn from(_error: AllocError) -> CondenseFault {
        CondenseFault::Memory
    }
}
