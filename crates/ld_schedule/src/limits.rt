//! The limits of what is read and looked for.

/// The most records that a history may have after its first one, and so the most steps, tasks, locks and messages.
pub const MAX_RECORDS: usize = 268_435_456;

/// The most bytes that the name of a task or a lock may have.
pub const MAX_NAME: usize = 64;

/// The most tasks of a ring that is looked for.
pub const LONGEST_RING: usize = 5;

/// The most rings of a history that are looked at.
pub const MOST_RINGS: usize = 200_000;

/// The most waits that are looked at in looking for rings, and as many again for the parts in which they are.
pub const MOST_WORK: usize = 10_000_000;

/// The most rings of a history that are tried.
pub const MOST_TRIED: usize = 10_000;

/// The most rings over the same locks that are tried, if tasks stand still at none of them.
pub const MOST_TRIED_OVER_LOCKS: usize = 200;
