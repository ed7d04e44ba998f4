//! Why a key has no number.

ghost use Rattle.std.specs.Prelude.{◌≡◌};
ghost use Rattle.ld_trace.specs.KeyFaults.{code_of};

use thiserror::Error;

/// Why a key got no number.
#[derive(Clone, Copy, PartialEq, Eq, Debug, Error)]
pub enum KeyFault {
    /// The name isn't 1 to 64 bytes of 0x21 to 0x7E.
    #[error("a lock name is 1 to 64 visible ASCII characters")]
    BadName,
    /// The subclass is above 7.
    #[error("a subclass is at most 7")]
    BadSub,
    /// The key would be one more than the table has room for: of a table of `KeyTable::new`, the 257th.
    #[error("the table has no room for another lock key")]
    Full,
    /// Memory for a new key was refused.
    #[error("out of memory")]
    Memory,
}

impl KeyFault {
    /// Its number and name, as `K1 BadName`.
    pub fn code(&self) -> &'static str
        ensures { result.now ≡ code_of self.now }
    {
        match self {
            KeyFault::BadName => "K1 BadName",
            KeyFault::BadSub => "K2 BadSub",
            KeyFault::Full => "K3 Full",
            KeyFault::Memory => "K4 Memory",
        }
    }
}
