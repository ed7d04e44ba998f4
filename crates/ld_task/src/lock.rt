//! Locks as a task holds them.

ghost use Rattle.std.specs.Prelude.{◌≡◌};
ghost use Rattle.ld_task.specs.Locks.{mode_number};

use ld_trace::{KeyId, Mode};
use std::marker::Model;

/// The most locks that a task keeps, over all its open frames.
pub const MAX_HELD: usize = 48;

/// A key that is taken in a mode, in one word: the mode's number in the three low bits, the key above them.
#[derive(Clone, Copy, PartialEq, Eq, Debug, Hash)]
pub struct Lock {
    word: u16,
}

impl Model for Lock {
    ghost use Rattle.ld_task.specs.Locks.{IsLockWord, LockParts, lock_of_word, lock_word};
    ghost use Rattle.ld_task.specs.Laws.Locks.{lock_word-of_word};

    ghost Value = { LockParts };

    ghost view = { λ l. lock_of_word l.word };

    ghost invariant = { λ l. IsLockWord l.word };

    ghost inverse = { λ lock. record { word = lock_word lock } };

    ghost inverse_ok = { λ l h i. record { word = lock_word-of_word l.word h i } };
}

impl Default for Lock {
    fn default() -> Self {
        Lock::new(KeyId::default(), Mode::Write)
    }
}

impl Lock {
    // The lock of this key, taken in this mode.
    pub(crate) fn new(key: KeyId, mode: Mode) -> Lock
        ensures { result ≡ record { key = key; mode = mode } }
    {
        Lock {
            word: key.get() * 8 + number_of(mode),
        }
    }

    pub(crate) fn key(self) -> KeyId
        ensures { result ≡ self.key }
    {
        match KeyId::of_many(self.word / 8) {
            Some(key) => key,
            None => unreachable!(),
        }
    }

    // Its word.
    pub(crate) fn word(self) -> u16 {
        self.word
    }

    // The mode that it is taken in.
    pub(crate) fn mode(self) -> Mode
        ensures { result ≡ self.mode }
    {
        match self.word % 8 {
            0 => Mode::Write,
            1 => Mode::Read,
            2 => Mode::RecRead,
            3 => Mode::TryWrite,
            4 => Mode::TryRead,
            5 => Mode::TryRecRead,
            _ => unreachable!(),
        }
    }
}

fn number_of(mode: Mode) -> u16
    ensures { result ≡ mode_number mode }
{
    match mode {
        Mode::Write => 0,
        Mode::Read => 1,
        Mode::RecRead => 2,
        Mode::TryWrite => 3,
        Mode::TryRead => 4,
        Mode::TryRecRead => 5,
    }
}

/// A lock that is kept, with the number of frames outside the one that it was taken in.
#[derive(Clone, Copy, PartialEq, Eq, Debug, Default)]
pub struct KeptLock {
    pub level: u8,
    pub lock: Lock,
}
