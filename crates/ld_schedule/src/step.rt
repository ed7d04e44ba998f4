//! The steps of a history.

ghost use Rattle.std.specs.Prelude.{◌≡◌, ◌↔◌, IsTrue};

/// How a lock is held. Two takings of a lock exclude each other unless both are by readers.
#[derive(Clone, Copy, PartialEq, Eq, Hash, Debug)]
pub enum HoldMode {
    /// By a writer.
    Write,
    /// By a reader that waits behind a waiting writer.
    Read,
    /// By a reader that passes waiting writers.
    RecRead,
}

impl HoldMode {
    ghost use Rattle.ld_schedule.specs.Histories.{Blocks};

    /// Whether who has a lock in this mode keeps others from taking it in the other.
    pub fn blocks(self, other: HoldMode) -> bool
        ensures { IsTrue result ↔ Blocks self other }
    {
        match self {
            HoldMode::Write => true,
            _ => other == HoldMode::Write,
        }
    }
}

/// Whether a taking waits for a lock that it can't have.
#[derive(Clone, Copy, PartialEq, Eq, Debug)]
pub enum Wait {
    /// Until it has the lock.
    Forever,
    /// For a time, and then it gives up.
    Limited,
    /// Not at all: it is a try.
    Never,
}

/// What a lock of a history stands for.
#[derive(Clone, Copy, PartialEq, Eq, Debug)]
pub enum LockKind {
    /// A lock.
    Plain,
    /// The life of a thread: the thread has it from its start to its end, and whoever joins the thread takes it.
    Thread,
    /// A routine that runs once: its runner has it as a writer, and all callers take it as readers.
    Once,
}

/// What a task does in one step. Locks and messages are numbered from 0.
#[derive(Clone, Copy, PartialEq, Eq, Debug)]
pub enum Action {
    /// It takes a lock that it doesn't have.
    Take {
        lock: u32,
        mode: HoldMode,
        wait: Wait,
    },
    /// As a plain reader it takes once more what it has as a reader: it may wait behind a waiting writer, and takes nothing.
    Again {
        lock: u32,
    },
    /// It releases a lock that it has.
    Release {
        lock: u32,
    },
    /// It gives a message: a start of a thread, a signal, a post.
    Give {
        message: u32,
    },
    /// It gets a message that was given before.
    Get {
        message: u32,
    },
}

/// A step of a history: a task, numbered from 0, and what it does.
#[derive(Clone, Copy, PartialEq, Eq, Debug)]
pub struct Step {
    pub task: u32,
    pub action: Action,
}
