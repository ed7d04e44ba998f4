//! What a thread reads ahead, over a table of its own.

ghost use Rattle.std.specs.Prelude.{◌≡◌, ◌∷◌, ◌++◌, [], ℕ, List, Option, IsTrue, IsFalse};
ghost use Rattle.ld_trace.specs.declared.event.Event.{Event};
ghost use Rattle.ld_read.specs.Reading.{IsRead};
ghost use Rattle.ld_read.specs.Inside.Ahead.{AreFrom, AreParts, IsAhead};

use crate::sources::Sources;
use ld_trace::{KeyTable, MAX_KEYS, RawTrace, Renumbering, read_trace};
use std::alloc::Global;
use std::collections::VecDeque;
use std::sync::atomic::{AtomicUsize, Ordering};

// A trace, and how many names the table had before and after it.
#[derive(Drop)]
pub(crate) struct Part {
    pub(crate) place: usize,
    pub(crate) before: usize,
    pub(crate) after: usize,
    pub(crate) trace: RawTrace,
}

// What a thread has read: its table, the traces in the order of their places, and the numbers of the names that were taken in.
#[derive(Drop)]
pub(crate) struct Ahead {
    pub(crate) own: KeyTable,
    pub(crate) by: Renumbering,
    pub(crate) parts: VecDeque<Part>,
}

// Reads the traces that this thread claims, one at a time, until all are claimed or one can't be read.
pub(crate) fn read_claimed<S: Sources>(
    alloc: Global,
    sources: &S,
    count: usize,
    next: &AtomicUsize,
) -> Ahead
    ensures by { result.by ≡ [] }
    ensures parts { AreParts result }
    ensures from { AreFrom (S.holds sources.now) result }
{
    let mut ahead = Ahead::new(alloc);
    for _ in 0..count {
        let place = next.fetch_add(1, Ordering::SeqCst);
        if place >= count {
            break;
        }
        if !ahead.read(alloc, sources, place) {
            next.store(count, Ordering::SeqCst);
            break;
        }
    }
    ahead
}

impl Ahead {
    // Nothing was read yet.
    fn new(alloc: Global) -> Ahead
        ensures by { result.by ≡ [] }
        ensures parts { result.parts.items ≡ [] }
    {
        let Ok(own) = KeyTable::with_room(alloc, MAX_KEYS) else {
            unreachable!();
        };
        Ahead {
            own,
            by: Renumbering::new(alloc),
            parts: VecDeque::new(alloc),
        }
    }

    // Reads the trace at this place, and returns whether it was read and kept.
    fn read<S: Sources>(&mut self, alloc: Global, sources: &S, place: usize) -> bool
        ensures by { self.new.by ≡ self.old.by }
        ensures parts { AreParts self.old → AreParts self.new }
        ensures from { AreParts self.old → AreFrom (S.holds sources.now) self.old → AreFrom (S.holds sources.now) self.new }
    {
        let Some(source) = sources.ahead(place) else {
            return false;
        };
        let before = self.own.len();
        let Ok(trace) = read_trace(alloc, source, &mut self.own) else {
            return false;
        };
        let part = Part {
            place,
            before,
            after: self.own.len(),
            trace,
        };
        self.parts.push_back(part).is_ok()
    }

    // Whether the next of its traces is the one at this place.
    pub(crate) fn has_next(&self, place: usize) -> bool {
        self.parts.front().is_some_and(|part| part.place == place)
    }

    // Takes the next of its traces in, if it is the one at this place and was read over the names that were taken in before, and
    // returns whether it was taken in. If not, the table and the traces are unchanged.
    pub(crate) fn take_in(
        &mut self,
        place: usize,
        keys: &mut KeyTable,
        traces: &mut Vec<RawTrace>,
    ) -> bool
        requires { IsAhead keys.old.names self.old }
        ensures ahead { IsTrue result → IsAhead keys.new.names self.new }
        ensures from { (holds : ℕ → Option (List ℕ)) → AreFrom holds self.old → AreFrom holds self.new }
        ensures taken { IsTrue result → (trace : List Event) × (traces.new.items ≡ traces.old.items ++ trace ∷ [])
            × ((holds : ℕ → Option (List ℕ)) → AreFrom holds self.old
            → IsRead keys.old.room (holds place) keys.old.names keys.new.names trace) }
        ensures none { IsFalse result → (keys.new ≡ keys.old) × (traces.new.items ≡ traces.old.items) }
        ensures room { keys.new.room ≡ keys.old.room }
    {
        let Some(part) = self.parts.pop_front() else {
            return false;
        };
        if part.place != place || part.before != self.by.len() || traces.reserve(1).is_err() {
            return false;
        }
        match keys.take_in(&self.own, part.after, &mut self.by, part.trace) {
            Ok(trace) => {
                traces.push_reserved(trace);
                true
            }
            Err(_) => false,
        }
    }
}
