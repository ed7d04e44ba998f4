//! Traces that are read in turn.

ghost use Rattle.std.specs.Prelude.{◌≡◌, ◌+◌, ◌≤◌, ◌<◌, ◌∷◌, ◌++◌, [], ℕ, List, All, length, IfOk, IfErr, IfSome, OnOk};
ghost use Rattle.ld_trace.specs.declared.event.Event.{Event};
ghost use Rattle.ld_trace.specs.declared.trace_fault.TraceFaultKind.{TraceFaultKind};
ghost use Rattle.ld_trace.specs.Events.{KeysBelow};
ghost use Rattle.ld_trace.specs.Names.{Name};
ghost use Rattle.ld_trace.specs.Reading.{ReadsTo, StopsAt};
ghost use Rattle.ld_read.specs.Reading.{AreRead, IsNotRead, IsRead, StopsAfter};

use crate::sources::Sources;
use crate::taking::read_ahead;
use crate::unread::{ReadFault, Unread};
use ld_trace::{KeyTable, RawTrace, TraceFault, TraceFaultKind, read_trace};
use std::alloc::Global;
use std::io::Read;
use std::thread::Threads;

/// Reads the traces of the first `count` sources over one table, and puts them after the others. The result is that of reading them
/// in turn, whatever the number of threads: with more than one, later sources may be opened and read before an earlier one was read
/// whole, each thread over a table of its own. What fails ahead of its turn is tried again, so it isn't told if it succeeds then; a
/// read that fails in its turn is always told.
///
/// If a source can't be opened, or its trace is refused, the first such source is returned with its place and why it wasn't read; the
/// traces before it are kept, and the names are those that reading in turn leaves.
pub fn read_all<R: Threads + Sync, S: Sources + Sync>(
    rt: &R,
    alloc: Global,
    threads: usize,
    sources: &S,
    count: usize,
    keys: &mut KeyTable,
    traces: &mut Vec<RawTrace>,
) -> Result<(), Unread>
    ensures ok { OnOk result ((added : List (List Event)) × (traces.new.items ≡ traces.old.items ++ added)
        × (length added ≡ count) × AreRead keys.old.room (S.holds sources.now) 0 keys.old.names keys.new.names added) }
    ensures refused { IfErr result (λ unread. (added : List (List Event)) × (traces.new.items ≡ traces.old.items ++ added)
        × (unread.place < count) × StopsAfter keys.old.room (S.holds sources.now) 0 keys.old.names keys.new.names added unread) }
    ensures below { All (KeysBelow (length keys.old.names)) traces.old.items
        → All (KeysBelow (length keys.new.names)) traces.new.items }
    ensures room { keys.new.room ≡ keys.old.room }
{
    let first = read_ahead(rt, alloc, threads, sources, count, keys, traces);
    read_from(alloc, sources, first, count, keys, traces)
}

// Reads the traces of the sources from this place on.
fn read_from<S: Sources>(
    alloc: Global,
    sources: &S,
    first: usize,
    count: usize,
    keys: &mut KeyTable,
    traces: &mut Vec<RawTrace>,
) -> Result<(), Unread>
    requires { first ≤ count }
    ensures ok { OnOk result ((added : List (List Event)) × (traces.new.items ≡ traces.old.items ++ added)
        × (first + length added ≡ count) × AreRead keys.old.room (S.holds sources.now) first keys.old.names keys.new.names added) }
    ensures refused { IfErr result (λ unread. (added : List (List Event)) × (traces.new.items ≡ traces.old.items ++ added)
        × (unread.place < count) × StopsAfter keys.old.room (S.holds sources.now) first keys.old.names keys.new.names added unread) }
    ensures room { keys.new.room ≡ keys.old.room }
{
    for place in first..count {
        if let Err(fault) = read_one(alloc, sources, place, keys, traces) {
            return Err(Unread { place, fault });
        }
    }
    Ok(())
}

// Reads the trace of the source at this place.
fn read_one<S: Sources>(
    alloc: Global,
    sources: &S,
    place: usize,
    keys: &mut KeyTable,
    traces: &mut Vec<RawTrace>,
) -> Result<(), ReadFault>
    ensures ok { OnOk result ((trace : List Event) × (traces.new.items ≡ traces.old.items ++ trace ∷ [])
        × IsRead keys.old.room (S.holds sources.now place) keys.old.names keys.new.names trace) }
    ensures refused { IfErr result (λ fault. (traces.new.items ≡ traces.old.items)
        × IsNotRead keys.old.room (S.holds sources.now place) keys.old.names keys.new.names fault) }
    ensures room { keys.new.room ≡ keys.old.room }
{
    let Some(source) = sources.open(place) else {
        return Err(ReadFault::CannotOpen);
    };
    if traces.reserve(1).is_err() {
        return Err(ReadFault::Trace(no_room()));
    }
    let read = read_trace(alloc, source, keys).map_err(ReadFault::Trace)?;
    traces.push_reserved(read);
    Ok(())
}

/// Reads one trace and puts it after the others. Room for it is made before reading: if memory runs out for that, the fault is T9 at
/// record 1. Every other fault is that of `read_trace`.
pub fn read_into<R: Read + Drop>(
    alloc: Global,
    reader: R,
    keys: &mut KeyTable,
    traces: &mut Vec<RawTrace>,
) -> Result<(), TraceFault>
    ensures ok { IfOk result (λ _. (trace : List Event) × (traces.new.items ≡ traces.old.items ++ trace ∷ [])
        × KeysBelow (length keys.new.names) trace
        × IfSome (R.remaining reader) (λ bytes. ReadsTo keys.old.room keys.old.names bytes keys.new.names trace)) }
    ensures refused { IfErr result (λ fault. (traces.new.items ≡ traces.old.items)
        × IfSome (R.remaining reader) (λ bytes. StopsAt keys.old.room keys.old.names bytes keys.new.names fault)) }
    ensures kept { (added : List Name) × (keys.new.names ≡ keys.old.names ++ added) }
    ensures room { keys.new.room ≡ keys.old.room }
{
    if traces.reserve(1).is_err() {
        return Err(no_room());
    }
    let trace = read_trace(alloc, reader, keys)?;
    traces.push_reserved(trace);
    Ok(())
}

// The fault if memory runs out for the room of a trace.
pub(crate) fn no_room() -> TraceFault
    ensures fault { result ≡ record { kind = TraceFaultKind.Memory; at = 1 } }
    ensures stops { (room : ℕ) (names : List Name) (bytes : List ℕ) → StopsAt room names bytes names result }
{
    TraceFault {
        kind: TraceFaultKind::Memory,
        at: 1,
    }
}
