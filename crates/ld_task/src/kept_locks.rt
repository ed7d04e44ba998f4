//! Questions about the locks that a task keeps. A lock's level is the number of frames outside the one that it was
//! taken in.

ghost use Rattle.std.specs.Prelude.{◌≡◌, ◌<◌, filter, IfSome, length, map, slice_get};
ghost use Rattle.std.specs.List.{list_any};
ghost use Rattle.ld_task.specs.Inside.Machine.{is_at, is_of, last_place, lock_of};
ghost use Rattle.ld_task.specs.Inside.Placing.{places_at};

use crate::lock::{KeptLock, Lock, MAX_HELD};
use arrayvec::ArrayVec;
use ld_trace::KeyId;

/// The locks that were taken at this level, oldest first.
pub(crate) fn held_at(locks: &ArrayVec<KeptLock, MAX_HELD>, level: u8) -> ArrayVec<Lock, MAX_HELD>
    ensures { result.items ≡ map lock_of (filter (is_at level) locks.now.items) }
{
    let mut held = ArrayVec::new();
    for kept in locks.as_slice() {
        if kept.level == level {
            held.push(kept.lock);
        }
    }
    held
}

/// Whether a lock was taken at this level.
pub(crate) fn any_at(locks: &ArrayVec<KeptLock, MAX_HELD>, level: u8) -> bool
    ensures { result ≡ list_any (is_at level) locks.now.items }
{
    locks.as_slice().iter().any(|kept| kept.level == level)
}

/// The place of the newest lock of this key that was taken at this level.
pub(crate) fn newest_of(
    locks: &ArrayVec<KeptLock, MAX_HELD>,
    level: u8,
    key: KeyId,
) -> Option<usize>
    ensures exact { result ≡ last_place (is_of level key) locks.now.items }
    ensures within { IfSome result (λ place. place < length locks.now.items) }
{
    let mut found = None;
    for (place, kept) in locks.as_slice().iter().enumerate() {
        if kept.level == level && kept.lock.key() == key {
            found = Some(place);
        }
    }
    found
}

/// Given a position for each of the locks, the position of lock number `n` of those that were taken at this level.
pub(crate) fn place_at(
    locks: &ArrayVec<KeptLock, MAX_HELD>,
    places: &ArrayVec<u32, MAX_HELD>,
    level: u8,
    n: usize,
) -> Option<u32>
    requires { length places.now.items ≡ length locks.now.items }
    ensures { result ≡ slice_get (places_at level locks.now.items places.now.items) n }
{
    let mut left = n;
    for (i, kept) in locks.as_slice().iter().enumerate() {
        if kept.level != level {
            continue;
        }
        if left == 0 {
            return Some(places[i]);
        }
        left -= 1;
    }
    None
}
