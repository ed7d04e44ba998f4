//! The events of a trace.

ghost use Rattle.std.specs.Prelude.{◌≡◌, ◌≤◌, ◌↔◌, IsTrue, length};

use crate::KeyId;

/// How a lock is taken.
#[derive(Clone, Copy, PartialEq, Eq, Debug, Hash)]
pub enum Mode {
    /// By a writer.
    Write,
    /// By a non-recursive reader.
    Read,
    /// By a recursive reader.
    RecRead,
    /// By a writer that doesn't wait for it.
    TryWrite,
    /// By a non-recursive reader that doesn't wait for it.
    TryRead,
    /// By a recursive reader that doesn't wait for it.
    TryRecRead,
}

impl Mode {
    ghost use Rattle.ld_trace.specs.Modes.{is_read, is_recursive, may_wait};
    ghost use Rattle.ld_trace.specs.Writing.{mode_word};

    /// Whether a lock in this mode is taken by a reader of either kind.
    pub fn is_read(self) -> bool
        ensures { result ≡ is_read self }
    {
        !matches!(self, Mode::Write | Mode::TryWrite)
    }

    /// Whether a lock in this mode is taken by a recursive reader.
    pub fn is_recursive(self) -> bool
        ensures { result ≡ is_recursive self }
    {
        matches!(self, Mode::RecRead | Mode::TryRecRead)
    }

    /// Whether whoever takes a lock in this mode may wait for it: a try never waits.
    pub fn may_wait(self) -> bool
        ensures { result ≡ may_wait self }
    {
        matches!(self, Mode::Write | Mode::Read | Mode::RecRead)
    }

    /// The word for it in a trace.
    pub fn word(self) -> &'static str
        ensures word { result.now ≡ mode_word self }
        ensures short { length result.now ≤ 3 }
    {
        match self {
            Mode::Write => "w",
            Mode::Read => "r",
            Mode::RecRead => "rr",
            Mode::TryWrite => "tw",
            Mode::TryRead => "tr",
            Mode::TryRecRead => "trr",
        }
    }
}

/// A state that a lock's use is marked for: a kind of interrupt.
#[derive(Clone, Copy, PartialEq, Eq, Debug, Hash)]
pub enum Irq {
    /// Hardware interrupts.
    Hard,
    /// Software interrupts.
    Soft,
}

impl Irq {
    ghost use Rattle.ld_trace.specs.Writing.{irq_word};

    /// The word for it in a trace.
    pub fn word(self) -> &'static str
        ensures { result.now ≡ irq_word self }
    {
        match self {
            Irq::Hard => "hardirq",
            Irq::Soft => "softirq",
        }
    }
}

/// One event of a task's trace.
#[derive(Clone, Copy, PartialEq, Eq, Debug, Hash)]
pub enum Event {
    /// The task takes a lock of this key.
    Acquire { mode: Mode, key: KeyId },
    /// It releases a lock of this key.
    Release { key: KeyId },
    /// An interrupt of this kind begins in it.
    Enter { irq: Irq },
    /// The innermost interrupt ends.
    Leave,
    /// It enables interrupts of this kind.
    TurnOn { irq: Irq },
    /// It disables interrupts of this kind.
    TurnOff { irq: Irq },
}

impl Event {
    ghost use Rattle.ld_trace.specs.Events.{KeyIsBelow, is_try};
    ghost use Rattle.ld_trace.specs.Inside.Renumbered.{event_with};

    // Whether its key, if it has one, is below `n`.
    pub(crate) fn key_is_below(&self, n: u16) -> bool
        ensures { IsTrue result ↔ KeyIsBelow n self.now }
    {
        match self {
            Event::Acquire { key, .. } | Event::Release { key } => key.get() < n,
            _ => true,
        }
    }

    // Whether it takes a lock by a try.
    pub(crate) fn is_try(&self) -> bool
        ensures { result ≡ is_try self.now }
    {
        match self {
            Event::Acquire { mode, .. } => !mode.may_wait(),
            _ => false,
        }
    }

    // The event with the key at this place of the list instead of its own, if it has one.
    pub(crate) fn renumbered(self, numbers: &[KeyId]) -> Event
        requires { KeyIsBelow (length numbers.now) self }
        ensures { result ≡ event_with numbers.now self }
    {
        match self {
            Event::Acquire { mode, key } => Event::Acquire {
                mode,
                key: numbers[usize::from(key.get())],
            },
            Event::Release { key } => Event::Release {
                key: numbers[usize::from(key.get())],
            },
            other => other,
        }
    }
}
