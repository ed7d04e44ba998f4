//! Taking in what threads have read ahead.

ghost use Rattle.std.specs.Prelude.{◌≡◌, ◌∷◌, ◌++◌, ◌≤◌, [], ℕ, List, Option, All, IfOk, IsTrue, IsFalse, length};
ghost use Rattle.ld_trace.specs.declared.event.Event.{Event};
ghost use Rattle.ld_read.specs.Reading.{AreRead, IsRead};
ghost use Rattle.ld_read.specs.Inside.Ahead.{AreFrom, AreParts, IsAhead};

use crate::ahead::{Ahead, read_claimed};
use crate::sources::Sources;
use ld_trace::{KeyTable, RawTrace, renumberings_stay};
use std::alloc::{AllocError, Global};
use std::sync::atomic::AtomicUsize;
use std::thread;
use std::thread::Threads;

// Reads the sources by several threads, puts the traces of the first ones after the others, and returns how many these are: none with
// fewer than two threads, with fewer than two sources, or if memory runs out.
pub(crate) fn read_ahead<R: Threads + Sync, S: Sources + Sync>(
    rt: &R,
    alloc: Global,
    threads: usize,
    sources: &S,
    count: usize,
    keys: &mut KeyTable,
    traces: &mut Vec<RawTrace>,
) -> usize
    ensures few { result ≤ count }
    ensures read { (added : List (List Event)) × (traces.new.items ≡ traces.old.items ++ added) × (length added ≡ result)
        × AreRead keys.old.room (S.holds sources.now) 0 keys.old.names keys.new.names added }
    ensures room { keys.new.room ≡ keys.old.room }
{
    if count < 2 || threads < 2 {
        return 0;
    }
    match read_in_threads(rt, alloc, threads, sources, count) {
        Ok(mut aheads) => take_in_all(aheads.as_mut_slice(), count, keys, traces),
        Err(_) => 0,
    }
}

// What this many threads have read of the sources.
fn read_in_threads<R: Threads + Sync, S: Sources + Sync>(
    rt: &R,
    alloc: Global,
    threads: usize,
    sources: &S,
    count: usize,
) -> Result<Vec<Ahead>, AllocError>
    ensures { IfOk result (λ aheads. All (λ ahead. (ahead.by ≡ []) × AreParts ahead × AreFrom (S.holds sources.now) ahead) aheads.items) }
{
    let next = AtomicUsize::new(0);
    thread::map_indices(
        rt,
        alloc,
        threads,
        &|_: usize| -> Ahead
            ensures { (result.by ≡ []) × AreParts result × AreFrom (S.holds sources.entry.now) result }
        { read_claimed(alloc, sources, count, &next) },
    )
}

// Takes in the traces from the first one on, up to one that isn't there or can't be taken in, and returns how many were.
fn take_in_all(
    aheads: &mut [Ahead],
    count: usize,
    keys: &mut KeyTable,
    traces: &mut Vec<RawTrace>,
) -> usize
    requires { All (IsAhead keys.old.names) aheads.old }
    ensures few { result ≤ count }
    ensures read { (added : List (List Event)) × (traces.new.items ≡ traces.old.items ++ added) × (length added ≡ result)
        × ((holds : ℕ → Option (List ℕ)) → All (AreFrom holds) aheads.old
        → AreRead keys.old.room holds 0 keys.old.names keys.new.names added) }
    ensures room { keys.new.room ≡ keys.old.room }
{
    for place in 0..count {
        if !take_in_next(aheads, place, keys, traces) {
            return place;
        }
    }
    count
}

// Takes in the trace at this place, if one of the threads has read it, and returns whether it was taken in.
fn take_in_next(
    aheads: &mut [Ahead],
    place: usize,
    keys: &mut KeyTable,
    traces: &mut Vec<RawTrace>,
) -> bool
    requires { All (IsAhead keys.old.names) aheads.old }
    ensures aheads { IsTrue result → All (IsAhead keys.new.names) aheads.new }
    ensures from { (holds : ℕ → Option (List ℕ)) → All (AreFrom holds) aheads.old → All (AreFrom holds) aheads.new }
    ensures taken { IsTrue result → (trace : List Event) × (traces.new.items ≡ traces.old.items ++ trace ∷ [])
        × ((holds : ℕ → Option (List ℕ)) → All (AreFrom holds) aheads.old
        → IsRead keys.old.room (holds place) keys.old.names keys.new.names trace) }
    ensures none { IsFalse result → (keys.new ≡ keys.old) × (traces.new.items ≡ traces.old.items) }
    ensures room { keys.new.room ≡ keys.old.room }
{
    for ahead in aheads.iter_mut() {
        if ahead.has_next(place) {
            renumberings_stay();
            return ahead.take_in(place, keys, traces);
        }
    }
    false
}
