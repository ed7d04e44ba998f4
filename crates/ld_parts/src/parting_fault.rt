//! Why facts aren't parted.

ghost use Rattle.std.specs.Prelude.{◌≡◌};

use std::alloc::{AllocError, AllocFailed};

/// Why facts have no graph for each rank.
#[derive(Clone, Copy, PartialEq, Eq, Debug)]
pub enum PartingFault {
    /// An arrow goes down by the ranks, or a rank has more than 256 keys.
    TooTangled,
    /// Memory was refused.
    Memory,
}

impl From<AllocError> for PartingFault {
    ghost use Rattle.ld_parts.specs.declared.parting_fault.PartingFault.TheVariants.{Memory};

    ghost from_gives = { λ _ e. e ≡ Memory };

    fn from(_error: AllocError) -> PartingFault {
        PartingFault::Memory
    }
}

impl<T: Drop> From<AllocFailed<T>> for PartingFault {
    ghost use Rattle.ld_parts.specs.declared.parting_fault.PartingFault.TheVariants.{Memory};

    ghost from_gives = { λ _ e. e ≡ Memory };

    fn from(_error: AllocFailed<T>) -> PartingFault {
        PartingFault::Memory
    }
}
