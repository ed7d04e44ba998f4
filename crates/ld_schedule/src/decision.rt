//! What is decided of a ring of lists of steps.

/// Of which locks the order of takings by different tasks is kept, where one of the two is by a writer.
#[derive(Clone, Copy, PartialEq, Eq, Debug)]
pub enum KeptOrder {
    /// Of all locks.
    OfAllLocks,
    /// Of the locks that stand for threads.
    OfThreads,
}

/// Steps at which tasks stand still, and a schedule that comes there: the steps below a cut, in their old order.
#[derive(Drop, Debug)]
pub struct Standstill {
    /// For each task, by its number, a position: its steps before that position are in the schedule.
    pub cut: Vec<u32>,
    /// The positions of the ring's steps, one for each list that was asked about, in the same order.
    pub steps: Vec<u32>,
}

/// Why a task has to go on.
#[derive(Clone, Copy, PartialEq, Eq, Debug)]
pub enum Cause {
    /// It comes to a step of the ring's list with this number, counted from 0.
    Member { list: usize },
    /// The step at this position gets what it gives.
    Message { got: u32 },
    /// It takes a lock before another task takes it at the later position, so it has to release it.
    Section { taken: u32, later: u32 },
}

/// A task has to take its steps before a position.
#[derive(Clone, Copy, PartialEq, Eq, Debug)]
pub struct Forced {
    pub task: u32,
    /// The position after the last of these steps, or the one of the next.
    pub until: u32,
    pub cause: Cause,
}

/// Where what tasks have to do can't be.
#[derive(Clone, Copy, PartialEq, Eq, Debug)]
pub enum Contradiction {
    /// The ring's list with this number has no step left that its task hasn't taken.
    NoneLeft { list: usize },
    /// A lock is taken at the first position and never released, and taken by another task at the later position.
    NeverReleased { taken: u32, later: u32 },
}

/// Why no schedule comes to a step of each list of a ring: what tasks have to do, the first one first, and where it ends.
#[derive(Drop, Debug)]
pub struct Reason {
    pub forced: Vec<Forced>,
    pub end: Contradiction,
}

/// What is decided of a ring.
#[derive(Drop, Debug)]
pub enum Decision {
    /// Tasks stand still at steps of the ring.
    Stands(Standstill),
    /// No schedule comes to a step of each list of the ring.
    Refuted(Reason),
    /// Neither is known.
    Undecided,
}
