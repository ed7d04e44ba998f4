//! Why a board isn't opened or closed.

ghost use Rattle.std.specs.Prelude.{◌≡◌};
ghost use Rattle.ld_board.specs.Faults.{board_code_of};

use std::alloc::AllocError;
use thiserror::Error;

/// Why a board isn't opened or closed.
#[derive(Clone, Copy, PartialEq, Eq, Debug, Error)]
pub enum BoardFault {
    /// C1: a board has 1 to 65 seats, and closing it takes each of them.
    #[error("the seats are not those of a board")]
    Seats,
    /// C2: memory was refused.
    #[error("out of memory")]
    Memory,
}

impl BoardFault {
    /// The fault's number and name, as `C2 Memory`.
    pub fn code(&self) -> &'static str
        ensures { result.now ≡ board_code_of self.now }
    {
        match self {
            BoardFault::Seats => "C1 Seats",
            BoardFault::Memory => "C2 Memory",
        }
    }
}

impl From<AllocError> for BoardFault {
    ghost use Rattle.ld_board.specs.declared.board_fault.BoardFault.TheVariants.{Memory};

    ghost from_gives = { λ _ e. e ≡ Memory };

    fn from(_error: AllocError) -> BoardFault {
        BoardFault::Memory
    }
}
