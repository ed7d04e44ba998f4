//! The usage marks of keys.

use ld_trace::Irq;

/// A usage mark of a key ["State"]. A mark is in its read form if a reader of either kind set it [this project's own].
#[derive(Clone, Copy, PartialEq, Eq, Debug, Hash)]
pub enum Mark {
    /// Taken at all.
    Used,
    /// Taken in the context of this state, and not by a try.
    UsedIn { irq: Irq, read: bool },
    /// Held, or taken, with this state enabled: softirqs are if both flags are on.
    Enabled { irq: Irq, read: bool },
}
