//! Why a book refuses.

ghost use Rattle.std.specs.Prelude.{◌≡◌};
ghost use Rattle.ld_book.specs.Faults.{code_of};

use thiserror::Error;

/// Why a book wasn't made, or an entry not recorded.
#[derive(Clone, Copy, PartialEq, Eq, Debug, Error)]
pub enum BookFault {
    /// The journal has as many entries as the limit allows.
    #[error("the book is full")]
    Full,
    /// Memory was refused.
    #[error("out of memory")]
    Memory,
    /// A key of the chain isn't below the book's bound.
    #[error("a key of the chain is not one of the book's")]
    BadKey,
}

impl BookFault {
    /// The fault's number and name, as `B1 Full`.
    pub fn code(&self) -> &'static str
        ensures { result.now ≡ code_of self.now }
    {
        match self {
            BookFault::Full => "B1 Full",
            BookFault::Memory => "B2 Memory",
            BookFault::BadKey => "B3 BadKey",
        }
    }
}
