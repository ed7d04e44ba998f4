//! Chains: what one acquisition or opening shows.

ghost use Rattle.std.specs.Prelude.{◌≡◌, ◌≤◌, ◌↔◌, ◌++◌, IsTrue, length, option_map, slice_get};
ghost use Rattle.ld_task.specs.Flags.{is_on};
ghost use Rattle.ld_task.specs.Chains.{ChainKeysBelow, key_and_mode, key_mode_and_frame};

use crate::frame::{Flags, Frame};
use crate::lock::{Lock, MAX_HELD};
use arrayvec::ArrayVec;
use ld_trace::{Irq, KeyId, Mode};
use std::hash::{Hash, Hasher};
use std::marker::Model;

/// What an acquisition or an opening shows: the locks that are held in its frame, oldest first; for an acquisition the
/// new lock and the frame; and the flags, just before an acquisition or just after an opening. At most 48 locks are
/// held.
#[derive(Drop, Debug)]
pub struct Chain {
    held: ArrayVec<Lock, MAX_HELD>,
    taken: Option<(Lock, Frame)>,
    flags: Flags,
}

impl Model for Chain {
    ghost use Rattle.std.specs.Prelude.{◌≤◌, length};
    ghost use Rattle.ld_task.specs.Chains.{ChainParts};
    ghost use Rattle.ld_task.specs.declared.lock.TheConstants.{MAX_HELD};

    ghost Value = { ChainParts };

    ghost view = { λ c. record {
      held_locks = c.held.items;
      new_lock = c.taken;
      flags = c.flags;
    } };

    ghost invariant = { λ c. length c.held.items ≤ MAX_HELD };
}

impl Chain {
    // The chain of an acquisition.
    pub(crate) fn acquisition(
        held: ArrayVec<Lock, MAX_HELD>,
        taken: Lock,
        frame: Frame,
        flags: Flags,
    ) -> Chain
        ensures { result ≡ record {
          held_locks = held.items;
          new_lock = Some (taken, frame);
          flags = flags;
        } }
    {
        Chain {
            held,
            taken: Some((taken, frame)),
            flags,
        }
    }

    // The chain of an opening.
    pub(crate) fn opening(held: ArrayVec<Lock, MAX_HELD>, flags: Flags) -> Chain
        ensures { result ≡ record {
          held_locks = held.items;
          new_lock = None;
          flags = flags;
        } }
    {
        Chain {
            held,
            taken: None,
            flags,
        }
    }

    /// The number of locks that are held, at most 48.
    pub fn held_len(&self) -> usize
        ensures exact { result ≡ length self.now.held_locks }
        ensures at_most { result ≤ MAX_HELD }
    {
        self.held.len()
    }

    /// The held lock at place `i`, counted from the oldest, or None if there is none.
    pub fn held(&self, i: usize) -> Option<(KeyId, Mode)>
        ensures { result ≡ option_map key_and_mode (slice_get self.now.held_locks i) }
    {
        let lock = self.held.as_slice().get(i)?;
        Some((lock.key(), lock.mode()))
    }

    /// The lock that an acquisition takes, with its frame; None for an opening.
    pub fn taken(&self) -> Option<(KeyId, Mode, Frame)>
        ensures { result ≡ option_map key_mode_and_frame self.now.new_lock }
    {
        let (lock, frame) = self.taken?;
        Some((lock.key(), lock.mode(), frame))
    }

    /// The flags, just before an acquisition or just after an opening.
    pub fn flags(&self) -> Flags
        ensures { result ≡ self.now.flags }
    {
        self.flags
    }

    /// Whether hardirqs are on, just before an acquisition or just after an opening.
    pub fn hard_on(&self) -> bool
        ensures { result ≡ is_on Irq.Hard self.now.flags }
    {
        self.flags.hard_on
    }

    /// Whether softirqs are on, just before an acquisition or just after an opening.
    pub fn soft_on(&self) -> bool
        ensures { result ≡ is_on Irq.Soft self.now.flags }
    {
        self.flags.soft_on
    }

    /// Whether every key of the chain is below `n`.
    pub fn keys_below(&self, n: u16) -> bool
        ensures { IsTrue result ↔ ChainKeysBelow n self.now }
    {
        let new_below = match self.taken {
            Some((lock, _)) => lock.key().get() < n,
            None => true,
        };
        new_below && self.held.as_slice().iter().all(|lock| lock.key().get() < n)
    }
}

impl PartialEq for Chain {
    ghost use Rattle.std.specs.Cmp.{partial_equiv_from_equiv};
    ghost use Rattle.ld_task.specs.ChainEquality.{chain_eq};
    ghost use Rattle.ld_task.specs.Inside.ChainEqualityLaws.{chain_eq-equivalence};

    ghost eq = { chain_eq };

    ghost laws = { partial_equiv_from_equiv chain_eq-equivalence };

    fn eq(&self, other: &Chain) -> bool {
        self.held.as_slice() == other.held.as_slice()
            && self.taken == other.taken
            && self.flags == other.flags
    }
}

impl Eq for Chain {
    ghost use Rattle.ld_task.specs.Inside.ChainEqualityLaws.{chain_eq-equivalence};

    ghost laws = { chain_eq-equivalence };
}

impl Hash for Chain {
    ghost use Rattle.std.specs.Hash as fed;
    ghost use Rattle.std.specs.Hash.{same_Alike};
    ghost use Rattle.ld_task.specs.Inside.ChainEqualityLaws.{chain_eq-decides};

    ghost hash_input = { λ c. fed.slice ⟦<Lock as Hash>⟧.hash_input c.held_locks
        ++ ⟦<Option<(Lock, Frame)> as Hash>⟧.hash_input c.new_lock
        ++ ⟦<Flags as Hash>⟧.hash_input c.flags };

    ghost respects_eq = { (same_Alike _ chain_eq-decides).fed };

    fn hash<H: Hasher>(&self, state: &mut H) {
        self.held.hash(state);
        self.taken.hash(state);
        self.flags.hash(state);
    }
}
