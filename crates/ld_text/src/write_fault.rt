//! Why a text wasn't written.

ghost use Rattle.std.specs.Prelude.{◌≡◌};
ghost use Rattle.ld_text.specs.Clauses.{write_code_of};

use thiserror::Error;

/// Why a text wasn't written whole.
#[derive(Clone, Copy, PartialEq, Eq, Debug, Error)]
pub enum WriteFault {
    /// O1: the writer returned an error, of whatever kind. A beginning of the text was written.
    #[error("O1 Failed")]
    Failed,
    /// O2: the writer took nothing of a piece that isn't empty. A beginning of the text was written.
    #[error("O2 Stuck")]
    Stuck,
    /// O3: memory was refused, before the first byte was written.
    #[error("O3 Memory")]
    Memory,
}

impl WriteFault {
    /// The fault's number and name, as `O1 Failed`.
    pub fn code(&self) -> &'static str
        ensures { result.now ≡ write_code_of self.now }
    {
        match self {
            WriteFault::Failed => "O1 Failed",
            WriteFault::Stuck => "O2 Stuck",
            WriteFault::Memory => "O3 Memory",
        }
    }
}
