//! A session: traces, in their order, and what is written of all of them together.

ghost use Rattle.std.specs.Prelude.{[], ◌++◌, ◌+◌, ◌<◌, ◌↔◌, ◌∷◌, ◌≡◌, ◌≤◌, All, IfErr, IfOk, IfSome, IsErrOf, IsOkAnd, IsTrue, List, OnOk, length, map, ℕ};
ghost use Rattle.lockdep.specs.Names.{Appends, AreRead, Event, IsClean, IsCrew, IsReportOf, IsWellFormed, KeysBelow, ReadsTo, StopsAfter, StopsAt, TracesHave};
ghost use Rattle.lockdep.specs.Clauses.{IsTextOf, StopsReport, StopsText, StopsVerdicts, WritesVerdicts, view_of};

use crate::fault::ReportFault;
use crate::output::{Output, write_output};
use crate::request::VerdictRequest;
use crate::settled::settled_of;
use crate::verdicts::write_verdicts_of;
use ld_read::{Sources, Unread, read_all, read_into};
use ld_run::{Gate, MAX_TRACES, MAX_WORKERS, RunFault};
use ld_trace::{GRAPH_KEYS, KeyFault, KeyTable, MAX_KEYS, RawTrace, TraceFault, event_count};
use std::alloc::Global;
use std::io::{Read, Write};
use std::marker::Model;
use std::sync::Wait;
use std::thread::Threads;

// As many events as one worker walks in about a millisecond. With fewer for each, more workers take as long as one.
const EVENTS_PER_WORKER: u128 = 32_768;

/// Traces that were read, and the names of their keys.
#[derive(Drop)]
pub struct Session {
    keys: KeyTable,
    traces: Vec<RawTrace>,
    alloc: Global,
}

impl Model for Session {
    ghost use Rattle.std.specs.Prelude.{All, length};
    ghost use Rattle.lockdep.specs.Names.{KeysBelow};
    ghost use Rattle.lockdep.specs.Sessions.{SessionParts};

    ghost Value = { SessionParts };

    ghost view = { λ s. record { room = s.keys.room; names = s.keys.names; traces = s.traces.items } };

    ghost invariant = { λ s. All (KeysBelow (length s.keys.names)) s.traces.items };
}

impl Session {
    /// A session without traces, with room for the names of 256 keys. K4 is the only refusal that its type leaves room for.
    pub fn new(alloc: Global) -> Result<Session, KeyFault>
        ensures { IsOkAnd result (λ session. session ≡ record { room = GRAPH_KEYS; names = []; traces = [] }) }
    {
        Session::with_room(alloc, GRAPH_KEYS)
    }

    /// A session without traces, with room for the names of `room` keys, at most `MAX_KEYS`. K4 is the only refusal that its
    /// type leaves room for.
    pub fn with_room(alloc: Global, room: u16) -> Result<Session, KeyFault>
        requires { room ≤ MAX_KEYS }
        ensures { IsOkAnd result (λ session. session ≡ record { room = room; names = []; traces = [] }) }
    {
        Ok(Session {
            keys: KeyTable::with_room(alloc, room)?,
            traces: Vec::new(alloc),
            alloc,
        })
    }

    /// Reads one trace, and keeps it after the others. Room for it is made before reading: if memory runs out for that, the
    /// fault is T9 at record 1. Every other fault is that of `read_trace`. After a refusal the traces are unchanged, and
    /// the keys of the events before the refused record have numbers.
    pub fn add<R: Read + Drop>(&mut self, reader: R) -> Result<(), TraceFault>
        ensures ok { IfOk result (λ _. (trace : List Event) × (self.new.traces ≡ self.old.traces ++ trace ∷ [])
            × IfSome (R.remaining reader) (λ bytes. ReadsTo self.old.room self.old.names bytes self.new.names trace)) }
        ensures refused { IfErr result (λ fault. (self.new.traces ≡ self.old.traces)
            × IfSome (R.remaining reader) (λ bytes. StopsAt self.old.room self.old.names bytes self.new.names fault)) }
        ensures below { All (KeysBelow (length self.new.names)) self.new.traces }
        ensures room { self.new.room ≡ self.old.room }
    {
        read_into(self.alloc, reader, &mut self.keys, &mut self.traces)
    }

    /// Reads the traces of the first `count` sources by several threads, and keeps them after the others. The result is that of reading
    /// them in turn by `add`, whatever the number of threads, but that what fails ahead of its turn and then succeeds isn't told; see
    /// `read_all`.
    pub fn add_all<R: Threads + Sync, S: Sources + Sync>(
        &mut self,
        rt: &R,
        threads: usize,
        sources: &S,
        count: usize,
    ) -> Result<(), Unread>
        ensures ok { OnOk result ((added : List (List Event)) × (self.new.traces ≡ self.old.traces ++ added)
            × (length added ≡ count) × AreRead self.old.room (S.holds sources.now) 0 self.old.names self.new.names added) }
        ensures refused { IfErr result (λ unread. (added : List (List Event)) × (self.new.traces ≡ self.old.traces ++ added)
            × (unread.place < count) × StopsAfter self.old.room (S.holds sources.now) 0 self.old.names self.new.names added unread) }
        ensures below { All (KeysBelow (length self.new.names)) self.new.traces }
        ensures room { self.new.room ≡ self.old.room }
    {
        read_all(
            rt,
            self.alloc,
            threads,
            sources,
            count,
            &mut self.keys,
            &mut self.traces,
        )
    }

    // How many of the workers are worth their threads: one for every 32,768 events, and at least one. A number of
    // workers that a run refuses is returned as it is.
    pub(crate) fn useful_workers(&self, workers: u16) -> u16
        ensures crew { IsCrew result ↔ IsCrew workers }
        ensures few { result ≤ workers }
    {
        if workers > MAX_WORKERS {
            return workers;
        }
        let shares = event_count(self.traces.as_slice()) / EVENTS_PER_WORKER;
        workers.min(shares.max(1).min(u128::from(MAX_WORKERS)) as u16)
    }

    /// Checks all traces by `workers` workers, writes the output for all of them together, and returns whether their facts are
    /// clean. What is written doesn't depend on the number of workers. Each worker calls the gate just before it records a
    /// chain. The session is consumed in every case.
    ///
    /// Refusals, in this order: `Run` with N1 if `workers` isn't 1 to 64, with N2 if there are more than 4,096 traces, and with
    /// N4 if the run is out of memory; `Step` with the first trace that isn't well formed, the record of its first event that
    /// isn't allowed, and why; `Run` with N3 if the workers don't agree on the facts; `Condensing` with E2 if memory runs out for
    /// a condensed trace, with E3 if it would have more than 1,000,000 events, and with E1 if it doesn't have exactly the facts,
    /// which no test has met; `Out` if writing failed. With
    /// more than 256 keys no chain is recorded, and instead of N3 there is M1 if the keys can't be split into parts of at most 256,
    /// or N4 again if memory is refused for the parts. Nothing was written in any of these cases, nor with O3, which means that memory ran out for the text; with O1 and O2 exactly
    /// a beginning of the text was [this project's own].
    pub fn write<R: Threads + Wait + Sync, W: Write, G: Gate + Sync>(
        self,
        rt: &R,
        alloc: Global,
        workers: u16,
        gate: &G,
        output: Output<'_>,
        w: &mut W,
    ) -> Result<bool, ReportFault>
        ensures ok { IfOk result (λ clean. All IsWellFormed self.traces
            × (IsTrue clean ↔ IsClean (TracesHave self.traces))
            × ((text : List ℕ) × IsTextOf (view_of output.entry) self.traces self.names text
            × Appends (W.contents w.old) (W.contents w.new) text)) }
        ensures crew { OnOk result (IsCrew workers × (length self.traces ≤ MAX_TRACES)) }
        ensures bad_workers { IsErrOf result (ReportFault.Run RunFault.BadWorkers) ↔ (¬ IsCrew workers) }
        ensures too_many { IsErrOf result (ReportFault.Run RunFault.TooManyTraces)
            ↔ (IsCrew workers × (MAX_TRACES < length self.traces)) }
        ensures refused { IfErr result (StopsText (view_of output.entry) self.traces self.names workers
            (W.contents w.old) (W.contents w.new)) }
    {
        let traces = self.traces.as_slice();
        let settled = settled_of(rt, alloc, workers, gate, traces, &self.keys)?;
        write_output(alloc, w, output, &settled, traces, &self.keys)?;
        Ok(settled.is_clean())
    }

    /// Checks all traces by `workers` workers, writes the findings between types of their locks, each with what it was
    /// seen between, and returns whether one of them counts: all but notes do, or if `confirmed_only` is set, what was
    /// seen between single locks and what isn't known. The request's files are the names of the traces, and its workers
    /// aren't asked for. The session is consumed in every case.
    ///
    /// Refusals are those of `write` for an explanation, but that there is no N3, and M1 means that more than 256 types lead to one
    /// another. N1 and N2 come exactly as there: a result, and any other refusal, needs a number of workers and of traces that is allowed.
    pub fn write_verdicts<R: Threads + Sync, W: Write>(
        self,
        rt: &R,
        alloc: Global,
        workers: u16,
        request: VerdictRequest<'_, '_>,
        w: &mut W,
    ) -> Result<bool, ReportFault>
        ensures ok { IfOk result (WritesVerdicts request.entry.format request.entry.confirmed_only
            (map (λ file. file.now) request.entry.files.now) self.names self.traces (W.contents w.old) (W.contents w.new)) }
        ensures crew { OnOk result (IsCrew workers × (length self.traces ≤ MAX_TRACES) × All IsWellFormed self.traces) }
        ensures refused { IfErr result (StopsVerdicts request.entry.format (map (λ file. file.now) request.entry.files.now)
            self.names self.traces workers (W.contents w.old) (W.contents w.new)) }
    {
        let traces = self.traces.as_slice();
        write_verdicts_of(rt, alloc, workers, traces, &self.keys, request, w)
    }

    /// Checks all traces by `workers` workers, writes the report of all of them together, and returns whether their facts are
    /// clean. Refusals are those of `write`, without E1, E2 and E3.
    pub fn report<R: Threads + Wait + Sync, W: Write, G: Gate + Sync>(
        self,
        rt: &R,
        alloc: Global,
        workers: u16,
        gate: &G,
        w: &mut W,
    ) -> Result<bool, ReportFault>
        ensures ok { IfOk result (λ clean. All IsWellFormed self.traces
            × (IsTrue clean ↔ IsClean (TracesHave self.traces))
            × ((text : List ℕ) × IsReportOf self.traces self.names text
            × Appends (W.contents w.old) (W.contents w.new) text)) }
        ensures crew { OnOk result (IsCrew workers × (length self.traces ≤ MAX_TRACES)) }
        ensures bad_workers { IsErrOf result (ReportFault.Run RunFault.BadWorkers) ↔ (¬ IsCrew workers) }
        ensures too_many { IsErrOf result (ReportFault.Run RunFault.TooManyTraces)
            ↔ (IsCrew workers × (MAX_TRACES < length self.traces)) }
        ensures refused { IfErr result (StopsReport self.traces self.names workers
            (W.contents w.old) (W.contents w.new)) }
    {
        self.write(rt, alloc, workers, gate, Output::Report, w)
    }
}
